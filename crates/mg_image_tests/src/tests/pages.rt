//! Pages of 1024 bytes made by hand.

ghost use Rattle.std.specs.Prelude.{◌≡◌, length};
ghost use Rattle.mg_slots.specs.DataPage.{IsDataPage};

use super::cells::{Laid, Said, cell_of};
use mg_base::{PageNo, TxNo, TxState, new_common};
use mg_header::{HEADER_KIND, Header, write_header};
use mg_pip::{new_pip, set_used};
use mg_pointer::{add_entry, new_pointer};
use mg_slots::{new_data, put_cell};
use mg_tip::{new_tip, set_state};
use std::alloc::Global;
use std::test::Fail;

/// How many bytes a page has.
pub const SIZE: usize = 1024;

pub const LIVE: TxState = TxState::Active;

pub const GONE: TxState = TxState::Dead;

pub const DONE: TxState = TxState::Committed;

pub const HELD: TxState = TxState::Limbo;

/// Makes the header page of these numbers, whose catalog begins on a page. The oldest snapshot is
/// that of the oldest interesting transaction.
pub fn header(b: &mut [u8], next: u32, oit: u32, oat: u32, catalog: u32)
    requires { length b.old ≡ SIZE }
{
    new_common(b, PageNo(0), HEADER_KIND, 0, 0);
    let header = Header {
        minor: 0,
        next: TxNo(next),
        oit: TxNo(oit),
        oat: TxNo(oat),
        ost: TxNo(oit),
        last_tip: PageNo(2),
        interval: 20_000,
        catalog: PageNo(catalog),
    };
    write_header(b, &header);
}

/// Makes the page inventory page, on which the first so many of 16 pages are used.
pub fn inventory(b: &mut [u8], used: u32)
    requires { length b.old ≡ SIZE }
{
    new_pip(b, PageNo(1), 0);
    for bit in 0..16 {
        set_used(b, bit, bit < used);
    }
}

/// Makes the transaction inventory page: what became of transactions 1 to 3.
pub fn transactions(b: &mut [u8], states: &[TxState; 3])
    requires { length b.old ≡ SIZE }
{
    new_tip(b, PageNo(2), 0, PageNo(0));
    set_state(b, 0, DONE);
    set_state(b, 1, states[0]);
    set_state(b, 2, states[1]);
    set_state(b, 3, states[2]);
}

/// Makes the pointer page of the table that begins on it, with these data pages.
pub fn pointers(b: &mut [u8], page: u32, data_pages: &[u32])
    requires { length b.old ≡ SIZE }
{
    new_pointer(b, PageNo(page), page, 0);
    for n in data_pages {
        add_entry(b, PageNo(*n));
    }
}

// Puts a cell whose versions stand on a page into the next slot of a data page.
fn put_laid(alloc: Global, b: &mut [u8], page: u8, cell: Laid) -> Result<(), Fail>
    requires { IsDataPage b.old }
    ensures { IsDataPage b.new }
{
    let bytes = cell_of(alloc, page, cell)?;
    if bytes.len() > 200 || put_cell(b, &bytes).is_err() {
        return Err("no room")?;
    }
    Ok(())
}

/// Puts cells whose versions stand on a page into the next slots of a data page.
pub fn put_cells(alloc: Global, b: &mut [u8], page: u8, cells: &[Laid]) -> Result<(), Fail>
    requires { IsDataPage b.old }
{
    for cell in cells {
        put_laid(alloc, b, page, *cell)?;
    }
    Ok(())
}

// Puts the cells of a row of the catalog into a slot and the next one: an anchor, and the version
// behind it.
fn put_row(alloc: Global, b: &mut [u8], slot: u8, said: Said) -> Result<(), Fail>
    requires { IsDataPage b.old }
    ensures { IsDataPage b.new }
{
    put_laid(alloc, b, 4, Laid::Anchor(slot.wrapping_add(1), said.3))?;
    put_laid(alloc, b, 4, Laid::Row(said))
}

/// Puts the cells of rows of the catalog on its data page, which is page 4.
pub fn put_rows(alloc: Global, b: &mut [u8], rows: &[Said]) -> Result<(), Fail>
    requires { IsDataPage b.old }
{
    let mut slot = 0u8;
    for said in rows {
        put_row(alloc, b, slot, *said)?;
        slot = slot.wrapping_add(2);
    }
    Ok(())
}

/// Makes the data page of a table at a place among its pages, without cells.
pub fn data(b: &mut [u8], page: u32, owner: u32, place: u32)
    requires { length b.old ≡ SIZE }
    ensures { IsDataPage b.new }
{
    new_data(b, PageNo(page), owner, place);
}
