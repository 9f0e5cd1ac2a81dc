//! The data pages that a pointer page names.

ghost use Rattle.std.specs.Prelude.{◌≡◌, ◌⊎◌, ◌<◌, ◌≤◌, ◌+◌, ◌^◌, IsErr, OnOk, length};
ghost use Rattle.mg_base.specs.Fields.{u32_at};
ghost use Rattle.mg_base.specs.Image.{page_at};
ghost use Rattle.mg_check_data.specs.DataRung.{HasOne};
ghost use Rattle.mg_check_inventory.specs.ImagePages.{IsWholeImage};
ghost use Rattle.mg_check_tables.specs.TableRung.{HasEntries, IsEntryFinding};
ghost use Rattle.mg_findings.specs.Findings.{Adds};
ghost use Rattle.mg_pointer.specs.PointerPage.{IsPointerPage, count_in, place_of};

use mg_base::{Bytes, Memory, get_u16, get_u32};
use mg_check_data::{DataSeat, note_data};
use mg_findings::Finding;
use mg_pointer::{COUNT_AT, ENTRIES_AT, ENTRY_LEN};
use std::alloc::Global;

/// Which pointer page is looked at, whose it is, and at which place among the table's data pages its
/// first entry stands.
#[derive(Clone, Copy)]
pub(crate) struct EntrySeat {
    pub page: u32,
    pub owner: u32,
    pub place: u32,
}

/// How many entries a pointer page has.
pub(crate) fn count_of(page: &[u8]) -> u32
    requires { IsPointerPage page.now }
    ensures count { result ≡ count_in page.now }
    ensures most { result ≤ 16378 }
{
    u32::from(get_u16(page, COUNT_AT))
}

/// The data page that an entry names.
pub(crate) fn seat_of(page: &[u8], seat: EntrySeat, i: u32) -> DataSeat
    requires lawful { IsPointerPage page.now }
    requires inside { i < count_in page.now }
    requires room { seat.place + count_in page.now < 2 ^ 32 }
    ensures holder { result.holder ≡ seat.page }
    ensures page { result.page ≡ u32_at page.now (place_of i) }
    ensures owner { result.owner ≡ seat.owner }
    ensures place { result.place ≡ seat.place + i }
{
    DataSeat {
        holder: seat.page,
        page: get_u32(page, ENTRIES_AT + ENTRY_LEN * i as usize),
        owner: seat.owner,
        place: seat.place + i,
    }
}

/// Adds what is found of the data pages that a pointer page names.
///
/// # Errors
///
/// `Memory` only, and only where something is found.
pub(crate) fn note_entries(
    alloc: Global,
    findings: &mut Vec<Finding>,
    size: u32,
    pages: &[Bytes],
    page: &[u8],
    seat: EntrySeat,
) -> Result<(), Memory>
    requires image { IsWholeImage size pages.now }
    requires page { page.now ≡ page_at size pages.now seat.page }
    requires lawful { IsPointerPage page.now }
    requires room { seat.place + count_in page.now < 2 ^ 32 }
    ensures adds { OnOk result (Adds findings.old.items findings.new.items (IsEntryFinding size
        (page_at size pages.now) (length pages.now) seat.owner seat.page seat.place)) }
    ensures cause { IsErr result → HasOne (IsEntryFinding size (page_at size pages.now)
        (length pages.now) seat.owner seat.page seat.place) }
    ensures decided { HasOne (IsEntryFinding size (page_at size pages.now) (length pages.now)
        seat.owner seat.page seat.place)
        ⊎ HasEntries size (page_at size pages.now) seat.owner seat.page seat.place }
{
    for i in 0..count_of(page) {
        note_data(alloc, findings, size, pages, seat_of(page, seat, i))?;
    }
    Ok(())
}
