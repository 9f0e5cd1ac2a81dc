//! The data page of the catalog in a new database.

ghost use Rattle.std.specs.Prelude.{◌≡◌, ◌≤◌, ◌+◌, ◌*◌, ◌++◌, ◌∷◌, [], ◌<◌, ◌^◌, ℕ, pos, List, IfOk, OnOk, length};
ghost use Rattle.std.specs.List.{sum_by};
ghost use Rattle.mg_value.specs.Rows.{RowFits, row_bytes};
ghost use Rattle.mg_rle.specs.Runs.{StandsFor};
ghost use Rattle.mg_version.specs.Cells.{IsWritable, cell_bytes};
ghost use Rattle.mg_value.specs.declared.value.Value.TheVariants.{Text as AnyText};
ghost use Rattle.mg_model.specs.Catalog.{catalog_shape};
ghost use Rattle.mg_model.specs.CatalogRules.{catalog_row as row_of_catalog};
ghost use Rattle.mg_image.specs.NewDatabase.{key_row as the_key_row, record_cells, table_row as the_table_row, value_row as the_value_row, with_bytes, with_cells, with_slot};
ghost use Rattle.mg_soundness.specs.NewCatalog.{AreCatalogCells, IsOnlyBody, IsOnlyCatalogPage};
ghost use Rattle.mg_slots.specs.declared.page.TheConstants.{SLOTS_AT, SLOT_LEN};

use mg_base::{Bytes, Memory, PageNo, RecId, TxNo, new_common, put_u16};
use mg_layout::catalog_table;
use mg_reading::RowCoding;
use mg_rle::{one_packed_text, one_plain_text, unpack};
use mg_rowcode::encode_row;
use mg_slots::{COUNT_AT, DATA_KIND, LOW_AT, SLOT_LEN, SLOTS_AT};
use mg_value::{Row, Shape, Txt, Value};
use mg_version::{Cell, Link, Version, write_cell};
use std::alloc::Global;

/// A text as a value.
fn text(alloc: Global, bytes: &[u8]) -> Result<Value, Memory>
    requires { length bytes.now ≤ 40 }
    ensures { IfOk result (λ value. value ≡ AnyText bytes.now) }
{
    match Txt::new(alloc, bytes, 40) {
        Ok(text) => Ok(Value::Text(text)),
        // The text is not too long, so memory is what was wanting.
        Err(_) => Err(Memory),
    }
}

/// A row of the catalog.
fn row(alloc: Global, key: Value, name: Value, numbers: [u8; 4]) -> Result<Row, Memory>
    ensures { IfOk result (λ row. (a b c d : ℕ) → numbers ≡ a ∷ b ∷ c ∷ d ∷ []
        → row ≡ row_of_catalog key name a b c d) }
{
    let values = vec![in alloc;
        key,
        name,
        Value::Int(i64::from(numbers[0])),
        Value::Int(i64::from(numbers[1])),
        Value::Int(i64::from(numbers[2])),
        Value::Int(i64::from(numbers[3])),
    ]?;
    Ok(Row::new(values))
}

/// The row of the table KV.
fn table_row(alloc: Global) -> Result<Row, Memory>
    ensures { IfOk result (λ row. row ≡ the_table_row) }
{
    let key = text(alloc, b"TKV")?;
    row(alloc, key, Value::Null, [5, 2, 0, 0])
}

/// The row of its column K.
fn key_row(alloc: Global) -> Result<Row, Memory>
    ensures { IfOk result (λ row. row ≡ the_key_row) }
{
    let key = text(alloc, b"CKV.00")?;
    let name = text(alloc, b"K")?;
    row(alloc, key, name, [0, 3, 1, 0])
}

/// The row of its column V.
fn value_row(alloc: Global) -> Result<Row, Memory>
    ensures { IfOk result (λ row. row ≡ the_value_row) }
{
    let key = text(alloc, b"CKV.01")?;
    let name = text(alloc, b"V")?;
    row(alloc, key, name, [0, 0, 1, 1])
}

/// The bytes that a packed text stands for.
fn plain_of(alloc: Global, packed: &[u8]) -> Result<Vec<u8>, Memory>
    requires { length packed.now < 2 ^ 31 }
    ensures { IfOk result (λ plain. StandsFor packed.now plain.items) }
{
    let mut plain = Vec::new(alloc);
    match unpack(packed, &mut plain) {
        Ok(()) => Ok(plain),
        // It is given packed texts alone, so memory is what was wanting.
        Err(_) => Err(Memory),
    }
}

/// The body that codes a row of the catalog.
fn body_of(alloc: Global, coding: RowCoding, shape: &Shape, row: &Row) -> Result<Vec<u8>, Memory>
    requires shape { shape.now ≡ catalog_shape }
    requires fits { RowFits catalog_shape.columns row.now }
    requires len { length (row_bytes catalog_shape.columns row.now) ≤ 108 }
    ensures { IfOk result (λ body. IsOnlyBody coding row.now body.items) }
{
    one_packed_text();
    one_plain_text();
    let mut packed = Vec::new(alloc);
    encode_row(shape, row, &mut packed)?;
    match coding {
        RowCoding::Packed => Ok(packed),
        RowCoding::Plain => plain_of(alloc, &packed),
    }
}

/// The bytes of a cell.
fn spelled(alloc: Global, cell: &Cell) -> Result<Bytes, Memory>
    requires { IsWritable cell.now }
    ensures { IfOk result (λ bytes. bytes ≡ cell_bytes cell.now) }
{
    let mut bytes = Vec::new(alloc);
    write_cell(cell, &mut bytes)?;
    Ok(Bytes::new(bytes))
}

/// Appends the cells of a record: an anchor in a slot, and behind it the version with a body.
fn add_record(alloc: Global, cells: &mut Vec<Bytes>, slot: u16, body: Vec<u8>) -> Result<(), Memory>
    requires { slot < 6 }
    ensures { OnOk result (cells.new.items ≡ cells.old.items ++ record_cells slot body.items) }
{
    let rec = RecId {
        page: PageNo(4),
        slot: slot + 1,
    };
    let version = Version {
        primary: false,
        deleted: false,
        format: 1,
        tx: TxNo(0),
        back: None,
        body: Bytes::new(body),
    };
    cells.push(spelled(alloc, &Cell::Anchor(Link { rec, tx: TxNo(0) }))?)?;
    cells.push(spelled(alloc, &Cell::Version(version))?)?;
    Ok(())
}

/// The cells of the catalog's data page.
fn catalog_cells(alloc: Global, coding: RowCoding) -> Result<Vec<Bytes>, Memory>
    ensures { IfOk result (λ cells. AreCatalogCells coding cells.items) }
{
    let catalog = catalog_table(alloc, 3)?;
    let mut cells = Vec::new(alloc);
    let table = body_of(alloc, coding, &catalog.shape, &table_row(alloc)?)?;
    add_record(alloc, &mut cells, 0, table)?;
    let key = body_of(alloc, coding, &catalog.shape, &key_row(alloc)?)?;
    add_record(alloc, &mut cells, 2, key)?;
    let value = body_of(alloc, coding, &catalog.shape, &value_row(alloc)?)?;
    add_record(alloc, &mut cells, 4, value)?;
    Ok(cells)
}

/// Puts bytes at a place of a page.
fn put_bytes(b: &mut [u8], at: usize, bytes: &[u8])
    requires { at + length bytes.now ≤ length b.old }
    ensures { b.new ≡ with_bytes b.old at bytes.now }
{
    b[at..at + bytes.len()].copy_from_slice(bytes);
}

/// Puts a cell at a place of a page, and its slot.
fn put_cell(b: &mut [u8], slot: usize, at: usize, cell: &[u8])
    requires size { length b.old ≤ 16384 }
    requires slot { SLOTS_AT + SLOT_LEN * (slot + 1) ≤ at }
    requires cell { at + length cell.now ≤ length b.old }
    ensures { b.new ≡ with_bytes (with_slot b.old slot at (length cell.now)) at cell.now }
{
    put_u16(b, SLOTS_AT + SLOT_LEN * slot, at as u16);
    put_u16(b, SLOTS_AT + SLOT_LEN * slot + 2, cell.len() as u16);
    put_bytes(b, at, cell);
}

/// Puts cells into the slots of a page, one below the other from its end downward.
pub(crate) fn put_cells(b: &mut [u8], cells: &[Bytes])
    requires size { length b.old ≤ 16384 }
    requires room { SLOTS_AT + SLOT_LEN * length cells.now
        + sum_by (λ cell. length cell) cells.now ≤ length b.old }
    ensures { b.new ≡ with_cells b.old 0 (length b.old) cells.now }
{
    let mut rest = cells;
    let mut slot = 0;
    let mut end = b.len();
    while let Some((cell, later)) = rest.split_first() {
        let at = end - cell.len();
        put_cell(b, slot, at, cell.as_slice());
        slot += 1;
        end = at;
        rest = later;
    }
    put_u16(b, COUNT_AT, slot as u16);
    put_u16(b, LOW_AT, end as u16);
}

/// Makes the data page of the catalog in a new database.
///
/// # Errors
///
/// `Memory` only. The page is then as it was.
pub(crate) fn make_catalog_page(
    alloc: Global,
    coding: RowCoding,
    b: &mut [u8],
) -> Result<(), Memory>
    requires least { 1024 ≤ length b.old }
    requires most { length b.old ≤ 16384 }
    ensures { OnOk result (IsOnlyCatalogPage coding (length b.old) b.new) }
{
    let cells = catalog_cells(alloc, coding)?;
    new_common(b, PageNo(4), DATA_KIND, 3, 0);
    put_cells(b, &cells);
    Ok(())
}
