//! The pages of a table, from its first pointer page on.

ghost use Rattle.std.specs.Prelude.{◌≡◌, ◌⊎◌, ◌<◌, ◌+◌, IsErr, OnOk, length};
ghost use Rattle.mg_base.specs.Image.{page_at};
ghost use Rattle.mg_check_data.specs.DataRung.{HasOne};
ghost use Rattle.mg_check_inventory.specs.ImagePages.{IsWholeImage};
ghost use Rattle.mg_check_tables.specs.TableRung.{HasPagesFrom, HasTable, IsChainFinding, IsTableFinding};
ghost use Rattle.mg_findings.specs.Findings.{Adds};

use crate::entries::{EntrySeat, count_of, note_entries};
use crate::pointers::{PointerSeat, check_seat};
use mg_base::{Bytes, Memory};
use mg_check_data::page_there;
use mg_check_inventory::check_link;
use mg_findings::{Finding, note};
use mg_pointer::next_of;
use std::alloc::Global;

/// Adds what is found in the pages of a table of an image, of which these are the pages: of each
/// pointer page from the first one on up to the first damaged one, and of the data pages that those
/// before it name.
///
/// `size` is the page size in bytes, `holder` the page that names the first pointer page, `first`
/// that page's number.
///
/// # Errors
///
/// `Memory` only, and only where something is found.
pub fn note_table(
    alloc: Global,
    findings: &mut Vec<Finding>,
    size: u32,
    pages: &[Bytes],
    holder: u32,
    first: u32,
) -> Result<(), Memory>
    requires { IsWholeImage size pages.now }
    ensures adds { OnOk result (Adds findings.old.items findings.new.items
        (IsTableFinding size (page_at size pages.now) (length pages.now) holder first)) }
    ensures cause { IsErr result → HasOne
        (IsTableFinding size (page_at size pages.now) (length pages.now) holder first) }
    ensures decided { HasOne
        (IsTableFinding size (page_at size pages.now) (length pages.now) holder first)
        ⊎ HasTable size (page_at size pages.now) first }
{
    if first == 0 {
        return note(findings, check_link(holder, first));
    }
    note_chain(alloc, findings, size, pages, holder, first)
}

/// The same, where there is a first pointer page.
fn note_chain(
    alloc: Global,
    findings: &mut Vec<Finding>,
    size: u32,
    pages: &[Bytes],
    holder: u32,
    first: u32,
) -> Result<(), Memory>
    requires { IsWholeImage size pages.now }
    ensures adds { OnOk result (Adds findings.old.items findings.new.items (IsChainFinding size
        (page_at size pages.now) (length pages.now) first holder first 0 0)) }
    ensures cause { IsErr result → HasOne (IsChainFinding size (page_at size pages.now)
        (length pages.now) first holder first 0 0) }
    ensures decided { HasOne (IsChainFinding size (page_at size pages.now) (length pages.now) first
        holder first 0 0) ⊎ HasPagesFrom size (page_at size pages.now) first first 0 0 }
{
    let mut from = holder;
    let mut n = first;
    let mut at = 0;
    let mut place = 0;
    while n != 0 {
        let seat = PointerSeat {
            holder: from,
            page: n,
            at,
        };
        match check_seat(size, pages, first, seat) {
            Err(damage) => return note(findings, Err(damage)),
            Ok(()) => {}
        }
        let page = page_there(pages, n);
        let entries = EntrySeat {
            page: n,
            owner: first,
            place,
        };
        note_entries(alloc, findings, size, pages, page, entries)?;
        from = n;
        at += 1;
        place += count_of(page);
        n = next_of(page).0;
    }
    Ok(())
}
