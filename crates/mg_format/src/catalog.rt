//! The data page of the catalog in a new database.

ghost use Rattle.std.specs.Prelude.{◌≡◌, ◌≤◌, ◌+◌, ◌-◌, ◌*◌, ◌∷◌, [], ◌<◌, List, ℕ, length};
ghost use Rattle.mg_image.specs.Form.{packed_coding};
ghost use Rattle.mg_image.specs.NewDatabase.{IsNewCatalogPage, with_bytes, with_cells};
ghost use Rattle.mg_slots.specs.declared.page.TheConstants.{SLOTS_AT, SLOT_LEN};

use mg_base::{PageNo, new_common, put_u16};
use mg_slots::{COUNT_AT, DATA_KIND, LOW_AT, SLOT_LEN, SLOTS_AT};

/// The anchor of the row of the table KV: it leads to the next slot of page 4, transaction 0.
const TABLE_ANCHOR: [u8; 11] = [1, 4, 0, 0, 0, 1, 0, 0, 0, 0, 0];

/// Its version: format 1, transaction 0, and the packed row.
const TABLE_VERSION: [u8; 25] = [
    2, 0, 1, 0, 0, 0, 0, 0, 6, 2, 3, 0, 84, 75, 86, 186, 0, 1, 5, 249, 0, 1, 2, 233, 0,
];

/// The anchor of the row of the column K.
const KEY_ANCHOR: [u8; 11] = [1, 4, 0, 0, 0, 3, 0, 0, 0, 0, 0];

/// Its version.
const KEY_VERSION: [u8; 34] = [
    2, 0, 1, 0, 0, 0, 0, 0, 9, 0, 6, 0, 67, 75, 86, 46, 48, 48, 222, 0, 3, 1, 0, 75, 218, 0, 1, 3,
    249, 0, 1, 1, 241, 0,
];

/// The anchor of the row of the column V.
const VALUE_ANCHOR: [u8; 11] = [1, 4, 0, 0, 0, 5, 0, 0, 0, 0, 0];

/// Its version.
const VALUE_VERSION: [u8; 34] = [
    2, 0, 1, 0, 0, 0, 0, 0, 9, 0, 6, 0, 67, 75, 86, 46, 48, 49, 222, 0, 3, 1, 0, 86, 210, 0, 1, 1,
    249, 0, 1, 1, 249, 0,
];

/// Makes the data page of the catalog: the rows of the table KV and of its columns K and V, each an
/// anchor and a version of transaction 0.
pub(crate) fn catalog_page(b: &mut [u8])
    requires least { 1024 ≤ length b.old }
    requires most { length b.old ≤ 16384 }
    ensures { IsNewCatalogPage packed_coding (length b.old) b.new }
{
    new_common(b, PageNo(4), DATA_KIND, 3, 0);
    let end = b.len();
    let end = put_cell(b, 0, end, &TABLE_ANCHOR);
    let end = put_cell(b, 1, end, &TABLE_VERSION);
    let end = put_cell(b, 2, end, &KEY_ANCHOR);
    let end = put_cell(b, 3, end, &KEY_VERSION);
    let end = put_cell(b, 4, end, &VALUE_ANCHOR);
    let end = put_cell(b, 5, end, &VALUE_VERSION);
    end_cells(b, 6, end);
}

/// Puts a cell into a slot, so that it ends at a place. The answer is where it begins.
fn put_cell(b: &mut [u8], slot: usize, end: usize, cell: &[u8]) -> usize
    requires size { length b.old ≤ 16384 }
    requires room { SLOTS_AT + SLOT_LEN * (slot + 1) + length cell.now ≤ end }
    requires end { end ≤ length b.old }
    ensures page { (later : List (List ℕ)) → with_cells b.new (slot + 1) result later
        ≡ with_cells b.old slot end (cell.now ∷ later) }
    ensures at { result ≡ end - length cell.now }
    ensures len { length b.new ≡ length b.old }
{
    let at = end - cell.len();
    put_u16(b, SLOTS_AT + SLOT_LEN * slot, at as u16);
    put_u16(b, SLOTS_AT + SLOT_LEN * slot + 2, cell.len() as u16);
    put_bytes(b, at, cell);
    at
}

/// Puts bytes at a place of a page.
fn put_bytes(b: &mut [u8], at: usize, bytes: &[u8])
    requires { at + length bytes.now ≤ length b.old }
    ensures { b.new ≡ with_bytes b.old at bytes.now }
{
    b[at..at + bytes.len()].copy_from_slice(bytes);
}

/// Writes how many slots a page has, and where its lowest cell begins.
pub(crate) fn end_cells(b: &mut [u8], slot: usize, end: usize)
    requires least { 1024 ≤ length b.old }
    requires slot { slot < 65536 }
    requires end { end < 65536 }
    ensures { b.new ≡ with_cells b.old slot end [] }
{
    put_u16(b, COUNT_AT, slot as u16);
    put_u16(b, LOW_AT, end as u16);
}
