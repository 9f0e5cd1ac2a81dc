//! Cells of data pages, read of any bytes: what lies past the end reads as 0.

ghost use Rattle.std.specs.Prelude.{◌≡◌, ◌<◌, ◌^◌, Some, None, drop, length, take, MatchOption};
ghost use Rattle.mg_image.specs.Records.{cell_spelled};
ghost use Rattle.mg_slots.specs.DataPage.{cell_of};
ghost use Rattle.mg_space.specs.Demands.{is_version_of as version_test};
ghost use Rattle.mg_version.specs.CellReading.{back_in, link_in};

use crate::fields::{byte_or_zero, u16_or_zero, u32_or_zero};
use mg_base::{PageNo, RecId, TxNo};
use mg_slots::{COUNT_AT, SLOT_LEN, SLOTS_AT};
use mg_version::{ANCHOR, BACK_AT, FLAGS_AT, HAS_BACK, KIND_AT, Link, TX_AT};

/// The bytes of a slot's cell. A slot that is free or past the last one has none.
#[tactic(auto, unfolding(mg_slots::specs::DataPage::cell_of))]
pub(crate) fn cell_at(b: &[u8], slot: u32) -> Option<&[u8]>
    ensures { MatchOption result (cell_of b.now slot ≡ None)
        (λ c. cell_of b.now slot ≡ Some c.now) }
{
    if slot >= u32::from(u16_or_zero(b, COUNT_AT)) {
        return None;
    }
    let at = SLOTS_AT + SLOT_LEN * slot as usize;
    let offset = u16_or_zero(b, at) as usize;
    let len = u16_or_zero(b, at + 2) as usize;
    if offset == 0 {
        None
    } else {
        Some(part(b, offset, len))
    }
}

/// So many bytes from a place on, as far as there are any.
fn part(b: &[u8], at: usize, len: usize) -> &[u8]
    ensures { result.now ≡ take len (drop at b.now) }
{
    let (_, rest) = b.split_at(at.min(b.len()));
    let (found, _) = rest.split_at(len.min(rest.len()));
    found
}

/// The link at a place.
pub(crate) fn link_at(b: &[u8], at: usize) -> Link
    requires { at < 2 ^ 31 }
    ensures { result ≡ link_in b.now at }
{
    let page = PageNo(u32_or_zero(b, at));
    let slot = u16_or_zero(b, at + 4);
    Link {
        rec: RecId { page, slot },
        tx: TxNo(u32_or_zero(b, at + 6)),
    }
}

/// The back pointer of a version, where it has one.
pub(crate) fn back_at(b: &[u8]) -> Option<Link>
    ensures { result ≡ back_in b.now }
{
    if byte_or_zero(b, FLAGS_AT) < HAS_BACK {
        None
    } else {
        Some(link_at(b, BACK_AT))
    }
}

/// Tells whether a cell is a version of a transaction.
pub(crate) fn is_version_of(cell: &[u8], t: u32) -> bool
    ensures { result ≡ version_test t (Some (cell_spelled cell.now)) }
{
    byte_or_zero(cell, KIND_AT) != ANCHOR && u32_or_zero(cell, TX_AT) == t
}
