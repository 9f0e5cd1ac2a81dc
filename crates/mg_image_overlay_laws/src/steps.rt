//! One image: what stays sound, and what stays held, when a page, a cell, or what has become of a
//! transaction is changed.
//!
//! Owns: the steps of one image, and the laws that a sound image stays sound over each. A cell is put,
//! a version pushed over another one or taken out, a record cut; a data page or a page that nothing
//! links is changed; a table gets a data page; bits of a transaction change; a transaction in limbo is
//! committed. What has become of the transactions is given (`IsSoundBy` of mg_image), whatever their
//! bits say.
//!
//! Which of a record's versions count, and what one image has of those of another, is told by `Fronts`:
//! a newest version of a dead transaction does not count, so a writer who counts as dead changes
//! nothing of it (`QuietVersions`).
//!
//! All stands in `specs/`. Of records: `Fronts`, `TableOwners`, `QuietVersions`, `Thins`, `Skips`, `SkipFronts`,
//! `SkipShown`, `Gone`, `Relink`, `Push`, `PushWhole`, `CommitHeld`. Of pages: `DataPages`, `DataSound`,
//! `Rest`, `Frame`, `Growth`, `Grow`, `Bits`, `Kinds`, `Trees`. Of both: `CommitSound`.

ghost use Rattle.mg_image.specs.Form.{packed_form};
ghost use Rattle.mg_image_overlay_laws.specs.kept.StepsLaws.{BitsStaySound, CommitStaysSound, TablesHaveMakers};

/// A transaction in limbo is committed: a sound image stays sound, tables that it has made are named
/// by committed rows then, and what its versions show is found.
pub fn commits_stay_sound()
    ensures { CommitStaysSound packed_form }
{}

/// The bits of a drawn transaction are changed on its page: under a given state nothing else is said.
pub fn bits_stay_sound()
    ensures { BitsStaySound packed_form }
{}

/// Who has made a table, in terms of the database and of the changes that an image holds.
pub fn tables_have_makers()
    ensures { TablesHaveMakers packed_form }
{}
