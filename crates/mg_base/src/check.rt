//! Tests of a page: the first field that differs, in page order.

ghost use Rattle.std.specs.Prelude.{◌≡◌, ◌≤◌, [], ◌∷◌, length};
ghost use Rattle.mg_base.specs.Checks.{verdict, common_checks};

use crate::damage::{Damaged, Field};
use crate::fields::{
    COMMON, FLAGS_AT, KIND_AT, OWN_AT, OWNER_AT, SEQUENCE_AT, ZERO_AT, get_u16, get_u32,
};
use crate::numbers::PageNo;

/// Tests one field of a page.
///
/// `page` is the number that the page was read under. It is only passed on to the answer.
///
/// # Errors
///
/// `Damaged` at `field`, exactly where `found` isn't `wanted`.
pub fn check_field(page: PageNo, field: Field, found: u32, wanted: u32) -> Result<(), Damaged>
    ensures { result ≡ verdict page ((field, found, wanted) ∷ []) }
{
    if found == wanted {
        Ok(())
    } else {
        Err(Damaged {
            page,
            field,
            found: u64::from(found),
            wanted: u64::from(wanted),
        })
    }
}

/// Tests the common part of a page.
///
/// `page` is the number that the page was read under, `owner` the number of the first pointer page
/// of its table, or 0 for a page of no table.
/// Source: Firebird ODS, the header of every page (`pag`).
///
/// # Errors
///
/// `Damaged` at the first field that differs: kind, flags, zero, own number, owner, sequence.
#[tactic(auto, unfolding(crate::specs::Checks::common_checks))]
pub fn check_common(b: &[u8], page: PageNo, kind: u8, owner: u32, seq: u32) -> Result<(), Damaged>
    requires { COMMON ≤ length b.now }
    ensures { result ≡ verdict page (common_checks b.now page.0 kind owner seq) }
{
    check_field(page, Field::Kind, u32::from(b[KIND_AT]), u32::from(kind))?;
    check_field(page, Field::Flags, u32::from(b[FLAGS_AT]), 0)?;
    check_field(page, Field::Zero, u32::from(get_u16(b, ZERO_AT)), 0)?;
    check_field(page, Field::Own, get_u32(b, OWN_AT), page.0)?;
    check_field(page, Field::Owner, get_u32(b, OWNER_AT), owner)?;
    check_field(page, Field::Sequence, get_u32(b, SEQUENCE_AT), seq)
}
