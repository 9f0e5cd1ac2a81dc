//! The pages of a new database, and whether an image is blank: it has no others.

ghost use Rattle.std.specs.Prelude.{◌≡◌, ◌≢◌, ◌↔◌, ◌≤◌, ℕ, List, [], IfOk, IsTrue, length, replicate};
ghost use Rattle.std.proofs.Math.ListN.{set};
ghost use Rattle.mg_reading.specs.declared.rows.RowCoding.{RowCoding as AnyCoding};
ghost use Rattle.mg_image.specs.NewDatabase.{IsNewPage, first_data_page, one_entry_page};
ghost use Rattle.mg_image.specs.Opening.{IsUnmade};
ghost use Rattle.mg_pip.specs.PipPage.{new_pip_page};
ghost use Rattle.mg_pip.specs.declared.page.TheConstants.{BITS_AT};
ghost use Rattle.mg_reading.specs.Codings.{coding_of};
ghost use Rattle.mg_reading.specs.ImageView.{pages_in};
ghost use Rattle.mg_reading.specs.SoundTables.{form_of};
ghost use Rattle.mg_tip.specs.TipPage.{new_tip_page};
ghost use Rattle.mg_tip.specs.declared.page.TheConstants.{STATES_AT};

use crate::new_catalog::{make_catalog_page, put_cells};
use mg_base::{GREATEST_LIMIT, Memory, PageNo, new_common, put_u16, put_u32};
use mg_pip::{BITS_AT, new_pip};
use mg_pointer::{COUNT_AT, ENTRIES_AT, POINTER_KIND};
use mg_reading::{Image, RowCoding};
use mg_slots::{DATA_KIND, GREATEST_SIZE};
use mg_tip::{STATES_AT, new_tip};
use std::alloc::Global;

/// Makes the page inventory page: pages 0 to 6 are used.
fn inventory_page(b: &mut [u8])
    requires { 1024 ≤ length b.old }
    ensures { b.new ≡ set (new_pip_page (length b.old) 1 0) BITS_AT 127 }
{
    new_pip(b, PageNo(1), 0);
    b[BITS_AT] = 127;
}

/// Makes the transaction inventory page: number 0 is committed.
fn transaction_page(b: &mut [u8])
    requires { 1024 ≤ length b.old }
    ensures { b.new ≡ set (new_tip_page (length b.old) 2 0 0) STATES_AT 3 }
{
    new_tip(b, PageNo(2), 0, PageNo(0));
    b[STATES_AT] = 3;
}

/// Makes the pointer page of a table, with one entry.
fn pointer_page(b: &mut [u8], page: u32, entry: u32)
    requires { 1024 ≤ length b.old }
    ensures { b.new ≡ one_entry_page (length b.old) page entry }
{
    new_common(b, PageNo(page), POINTER_KIND, page, 0);
    put_u16(b, COUNT_AT, 1);
    put_u32(b, ENTRIES_AT, entry);
}

/// Makes the data page of KV, which has no cells.
fn empty_page(b: &mut [u8])
    requires least { 1024 ≤ length b.old }
    requires most { length b.old ≤ 16384 }
    ensures { b.new ≡ first_data_page (length b.old) 6 5 [] }
{
    new_common(b, PageNo(6), DATA_KIND, 5, 0);
    put_cells(b, &[]);
}

/// Whether every byte is 0.
fn is_zero(page: &[u8]) -> bool
    ensures { IsTrue result ↔ (page.now ≡ replicate (length page.now) 0) }
{
    page.iter().all(|byte| *byte == 0)
}

/// Makes the page of a number in a new database, but for the catalog's data page.
fn make_page(b: &mut [u8], n: u32)
    requires least { 1024 ≤ length b.old }
    requires most { length b.old ≤ 16384 }
    requires some { 1 ≤ n }
    requires few { n ≤ 6 }
    requires other { n ≢ 4 }
    ensures { (coding : AnyCoding) (page : List ℕ)
        → (IsNewPage (coding_of coding) (length b.old) n page ↔ (page ≡ b.new)) }
{
    match n {
        1 => inventory_page(b),
        2 => transaction_page(b),
        3 => pointer_page(b, 3, 4),
        5 => pointer_page(b, 5, 6),
        _ => empty_page(b),
    }
}

/// Whether two pages have the same bytes.
fn is_same(a: &[u8], b: &[u8]) -> bool
    ensures { IsTrue result ↔ (a.now ≡ b.now) }
{
    a == b
}

/// Whether a page is that of its number in a new database.
fn is_new_page(alloc: Global, image: &Image, coding: RowCoding, n: u32) -> Result<bool, Memory>
    requires { 1 ≤ n }
    ensures { IfOk result (λ is. IsTrue is
        ↔ IsNewPage (coding_of coding) image.now.size n (pages_in image.now n)) }
{
    let page = image.page(n);
    if n > 6 {
        return Ok(is_zero(page));
    }
    let mut room = [0u8; GREATEST_SIZE];
    let made = &mut room[..page.len()];
    if n == 4 {
        make_catalog_page(alloc, coding, made)?;
        return Ok(is_same(page, made));
    }
    make_page(made, n);
    Ok(is_same(page, made))
}

/// Whether a database may be made on an image: page 0 is all zero, and each other page is too, or
/// it is that page of a new database. It reads each page, those past the end too, so it is slow on
/// an image of which it is true.
///
/// # Errors
///
/// `Memory` only.
pub fn is_unmade(alloc: Global, image: &Image, coding: RowCoding) -> Result<bool, Memory>
    ensures { IfOk result (λ blank. IsTrue blank
        ↔ IsUnmade (form_of coding) image.now.size (pages_in image.now)) }
{
    if !is_zero(image.page(0)) {
        return Ok(false);
    }
    for n in 1..GREATEST_LIMIT {
        if !is_zero(image.page(n)) && !is_new_page(alloc, image, coding, n)? {
            return Ok(false);
        }
    }
    Ok(true)
}
