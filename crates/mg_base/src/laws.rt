//! What holds of all disks and of all pages, each law as the contract of a call that does nothing.

ghost use Rattle.std.specs.Prelude.{◌≡◌};
ghost use Rattle.mg_base.specs.declared.fields.TheConstants.{COMMON, FLAGS_AT, KIND_AT, OWNER_AT, OWN_AT, SEQUENCE_AT, ZERO_AT};
ghost use Rattle.mg_base.specs.declared.geometry.TheConstants.{GREATEST_LIMIT, LEAST_LIMIT};

/// The numbers of the common part of a page and of a database's size, as every file has them.
pub fn numbers_of_every_file()
    ensures kind { KIND_AT ≡ 0 }
    ensures flags { FLAGS_AT ≡ 1 }
    ensures zero { ZERO_AT ≡ 2 }
    ensures own { OWN_AT ≡ 4 }
    ensures owner { OWNER_AT ≡ 8 }
    ensures sequence { SEQUENCE_AT ≡ 12 }
    ensures common { COMMON ≡ 16 }
    ensures least_limit { LEAST_LIMIT ≡ 16 }
    ensures greatest_limit { GREATEST_LIMIT ≡ 131072 }
{}
