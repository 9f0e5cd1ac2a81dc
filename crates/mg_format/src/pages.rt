//! The pages of a new database, one by one.

ghost use Rattle.std.specs.Prelude.{◌≡◌, ◌≤◌, [], length};
ghost use Rattle.std.proofs.Math.ListN.{set};
ghost use Rattle.mg_image.specs.Form.{packed_coding};
ghost use Rattle.mg_image.specs.NewDatabase.{IsNewPage, first_data_page, new_header_page, one_entry_page};
ghost use Rattle.mg_pip.specs.PipPage.{new_pip_page};
ghost use Rattle.mg_pip.specs.declared.page.TheConstants.{BITS_AT as FIRST_BITS};
ghost use Rattle.mg_tip.specs.TipPage.{new_tip_page};
ghost use Rattle.mg_tip.specs.declared.page.TheConstants.{STATES_AT as FIRST_STATES};

use crate::catalog::{catalog_page, end_cells};
use mg_base::{PageNo, new_common, put_u16, put_u32};
use mg_header::{
    CATALOG_AT, HEADER_KIND, INTERVAL_AT, LAST_TIP_AT, MAGIC, MAGIC_AT, MAJOR, MAJOR_AT, NEXT_AT,
    OAT_AT, OIT_AT, OST_AT, PAGE_SIZE_AT,
};
use mg_pip::{BITS_AT, new_pip};
use mg_pointer::{COUNT_AT, ENTRIES_AT, POINTER_KIND};
use mg_slots::DATA_KIND;
use mg_tip::{STATES_AT, new_tip};

/// How many transactions apart the oldest interesting and the oldest snapshot one make a sweep due
/// (Firebird's default).
const SWEEP_INTERVAL: u32 = 20_000;

/// Makes a page of a new database: that of a number from 0 to 6.
pub fn new_page(b: &mut [u8], n: u32)
    requires least { 1024 ≤ length b.old }
    requires most { length b.old ≤ 16384 }
    requires few { n ≤ 6 }
    ensures { IsNewPage packed_coding (length b.old) n b.new }
{
    match n {
        0 => header_page(b),
        1 => inventory_page(b),
        2 => transaction_page(b),
        3 => pointer_page(b, 3, 4),
        4 => catalog_page(b),
        5 => pointer_page(b, 5, 6),
        _ => empty_page(b),
    }
}

/// Makes the header page: no transaction was drawn yet.
fn header_page(b: &mut [u8])
    requires least { 1024 ≤ length b.old }
    requires most { length b.old ≤ 16384 }
    ensures { b.new ≡ new_header_page (length b.old) }
{
    let size = b.len() as u32;
    new_common(b, PageNo(0), HEADER_KIND, 0, 0);
    put_u32(b, MAGIC_AT, MAGIC);
    put_u16(b, MAJOR_AT, MAJOR);
    put_u32(b, PAGE_SIZE_AT, size);
    put_u32(b, NEXT_AT, 1);
    put_u32(b, OIT_AT, 1);
    put_u32(b, OAT_AT, 1);
    put_u32(b, OST_AT, 1);
    put_u32(b, LAST_TIP_AT, 2);
    put_u32(b, INTERVAL_AT, SWEEP_INTERVAL);
    put_u32(b, CATALOG_AT, 3);
}

/// Makes the page inventory page: pages 0 to 6 are used.
fn inventory_page(b: &mut [u8])
    requires { 1024 ≤ length b.old }
    ensures { b.new ≡ set (new_pip_page (length b.old) 1 0) FIRST_BITS 127 }
{
    new_pip(b, PageNo(1), 0);
    b[BITS_AT] = 127;
}

/// Makes the transaction inventory page: number 0 is committed.
fn transaction_page(b: &mut [u8])
    requires { 1024 ≤ length b.old }
    ensures { b.new ≡ set (new_tip_page (length b.old) 2 0 0) FIRST_STATES 3 }
{
    new_tip(b, PageNo(2), 0, PageNo(0));
    b[STATES_AT] = 3;
}

/// Makes the pointer page of a table, with one entry.
fn pointer_page(b: &mut [u8], page: u32, entry: u32)
    requires { 1024 ≤ length b.old }
    ensures { b.new ≡ one_entry_page (length b.old) page entry }
{
    new_common(b, PageNo(page), POINTER_KIND, page, 0);
    put_u16(b, COUNT_AT, 1);
    put_u32(b, ENTRIES_AT, entry);
}

/// Makes the data page of KV, which has no cells.
fn empty_page(b: &mut [u8])
    requires least { 1024 ≤ length b.old }
    requires most { length b.old ≤ 16384 }
    ensures { b.new ≡ first_data_page (length b.old) 6 5 [] }
{
    new_common(b, PageNo(6), DATA_KIND, 5, 0);
    let end = b.len();
    end_cells(b, 0, end);
}
