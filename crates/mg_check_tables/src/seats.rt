//! The data pages of a table as a list, each of which can be looked at by itself.

ghost use Rattle.std.specs.Prelude.{◌≡◌, ◌≢◌, ◌<◌, ◌+◌, ◌++◌, ◌^◌, IfOk, OnOk, length};
ghost use Rattle.mg_base.specs.Image.{page_at};
ghost use Rattle.mg_check_inventory.specs.ImagePages.{IsWholeImage};
ghost use Rattle.mg_check_tables.specs.Seats.{AreDataPages, AreSeats, entry_seats, seat_pages as pages_of_seats};
ghost use Rattle.mg_check_tables.specs.TableRung.{IsTableFinding};
ghost use Rattle.mg_findings.specs.Findings.{HasNone};
ghost use Rattle.mg_pointer.specs.PointerPage.{IsPointerPage, count_in};

use crate::entries::{EntrySeat, count_of, seat_of};
use crate::pointers::{PointerSeat, check_seat};
use mg_base::{Bytes, Damaged, Memory};
use mg_check_data::{DataSeat, page_there};
use mg_check_inventory::check_link;
use mg_pointer::next_of;
use std::alloc::Global;

/// What was come to on the pointer pages of a table.
#[derive(Drop)]
pub struct TableSeats {
    /// The data pages that they name, those before the first damaged pointer page alone.
    pub seats: Vec<DataSeat>,
    /// The damage, if there is one.
    pub test: Result<(), Damaged>,
}

/// Adds the data pages that a pointer page names.
///
/// # Errors
///
/// `Memory` only.
fn list_entries(seats: &mut Vec<DataSeat>, page: &[u8], seat: EntrySeat) -> Result<(), Memory>
    requires lawful { IsPointerPage page.now }
    requires room { seat.place + count_in page.now < 2 ^ 32 }
    ensures adds { OnOk result (seats.new.items ≡ seats.old.items
        ++ entry_seats page.now seat.owner seat.page seat.place (count_in page.now)) }
{
    for i in 0..count_of(page) {
        seats.push(seat_of(page, seat, i))?;
    }
    Ok(())
}

/// Follows the pointer pages of a table that has one, and lists the data pages that they name.
///
/// # Errors
///
/// `Memory` only.
fn chain_seats(
    alloc: Global,
    size: u32,
    pages: &[Bytes],
    holder: u32,
    first: u32,
) -> Result<TableSeats, Memory>
    requires image { IsWholeImage size pages.now }
    requires some { first ≢ 0 }
    ensures { IfOk result (λ it. AreSeats size (page_at size pages.now) (length pages.now) holder first
        it.seats.items it.test) }
{
    let mut seats = Vec::new(alloc);
    let mut from = holder;
    let mut n = first;
    let mut at = 0;
    let mut place = 0;
    while n != 0 {
        let seat = PointerSeat {
            holder: from,
            page: n,
            at,
        };
        match check_seat(size, pages, first, seat) {
            Err(damage) => {
                return Ok(TableSeats {
                    seats,
                    test: Err(damage),
                });
            }
            Ok(()) => {}
        }
        let page = page_there(pages, n);
        let entries = EntrySeat {
            page: n,
            owner: first,
            place,
        };
        list_entries(&mut seats, page, entries)?;
        from = n;
        at += 1;
        place += count_of(page);
        n = next_of(page).0;
    }
    Ok(TableSeats {
        seats,
        test: Ok(()),
    })
}

/// The data pages of a table of an image, of which these are the pages, and the first damage of its
/// pointer pages: what `note_table` finds is that damage, and what is found of each of these pages.
///
/// `size` is the page size in bytes, `holder` the page that names the first pointer page, `first`
/// that page's number.
///
/// # Errors
///
/// `Memory` only.
pub fn table_seats(
    alloc: Global,
    size: u32,
    pages: &[Bytes],
    holder: u32,
    first: u32,
) -> Result<TableSeats, Memory>
    requires { IsWholeImage size pages.now }
    ensures { IfOk result (λ it. AreSeats size (page_at size pages.now) (length pages.now) holder first
        it.seats.items it.test) }
{
    if first == 0 {
        return Ok(TableSeats {
            seats: Vec::new(alloc),
            test: check_link(holder, first),
        });
    }
    chain_seats(alloc, size, pages, holder, first)
}

/// The pages that seats name.
///
/// # Errors
///
/// `Memory` only.
fn seat_pages(alloc: Global, seats: &[DataSeat]) -> Result<Vec<u32>, Memory>
    ensures { IfOk result (λ numbers. numbers.items ≡ pages_of_seats seats.now) }
{
    let mut numbers = Vec::new(alloc);
    let mut rest = seats;
    while let Some((seat, later)) = rest.split_first() {
        numbers.push(seat.page)?;
        rest = later;
    }
    Ok(numbers)
}

/// The data pages of a table of an image, of which these are the pages, in the order of the entries of its pointer pages.
/// Nothing is found in the table (`note_table`).
///
/// `size` is the page size in bytes, `holder` the page that names the first pointer page, `first` that page's number.
///
/// # Errors
///
/// `Memory` only.
pub fn data_pages_of(
    alloc: Global,
    size: u32,
    pages: &[Bytes],
    holder: u32,
    first: u32,
) -> Result<Vec<u32>, Memory>
    requires image { IsWholeImage size pages.now }
    requires none { HasNone (IsTableFinding size (page_at size pages.now) (length pages.now) holder first) }
    ensures { IfOk result (λ numbers. AreDataPages (page_at size pages.now) first numbers.items) }
{
    let it = table_seats(alloc, size, pages, holder, first)?;
    match it.test {
        Ok(()) => seat_pages(alloc, it.seats.as_slice()),
        Err(_) => unreachable!(),
    }
}
