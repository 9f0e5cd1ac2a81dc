//! What an image holds: the rows of each of its tables.

ghost use Rattle.std.specs.Prelude.{◌≡◌, ◌≤◌, IfErr, IfOk, OnOk, length};
ghost use Rattle.mg_reading.specs.FirstBroken.{IsFirstBroken};
ghost use Rattle.mg_reading.specs.Found.{committed_of};
ghost use Rattle.mg_reading.specs.HeldTable.{AreHeld, IsTableHeld, rows_shown};
ghost use Rattle.mg_reading.specs.ImageView.{pages_in};
ghost use Rattle.mg_reading.specs.Readable.{IsReadable, IsReadableImage, Refutes};
ghost use Rattle.mg_image.specs.Inventory.{state_at};
ghost use Rattle.mg_image.specs.Sound.{HasHeader, HasInventory, HasNoOldLimbo, HasTransactions};

use crate::found::Found;
use crate::image::Image;
use crate::point::{ReadFault, Rule};
use crate::reading::shown;
use crate::rows::RowCoding;
use crate::table_reading::read_table;
use mg_base::Memory;
use mg_model::Table;
use mg_value::{MOST_COLUMNS, Row};
use std::alloc::Global;

/// The rows of a table.
#[derive(Drop)]
pub struct TableRows {
    pub rows: Vec<Row>,
}

/// The rows that these records show, in the order of their slots.
fn shown_rows(alloc: Global, image: &Image, found: &[Found]) -> Result<Vec<Row>, Memory>
    ensures { IfOk result (λ rows. rows.items ≡ rows_shown (committed_of image.now) found.now) }
{
    let mut rows = Vec::new(alloc);
    let mut rest = found;
    while let Some((first, later)) = rest.split_first() {
        if let Some(row) = shown(image, &first.entries) {
            rows.push(row.copy(alloc)?)?;
        }
        rest = later;
    }
    Ok(rows)
}

/// Tests the rules that speak of an image as a whole: its header, its transactions, and which of
/// its pages are used.
///
/// # Errors
///
/// `Broken` with the first of these rules that is broken.
pub fn check_image(image: &Image) -> Result<(), ReadFault>
    ensures header { OnOk result (HasHeader image.now.size (pages_in image.now)) }
    ensures transactions { OnOk result (HasTransactions image.now.size (pages_in image.now)) }
    ensures inventory { OnOk result (HasInventory image.now.size (pages_in image.now)) }
    ensures broken { IfErr result (λ fault.
        IsFirstBroken image.now.size (pages_in image.now) fault) }
{
    if !image.has_header() {
        return Err(ReadFault::Broken(Rule::Header));
    }
    if !image.has_transactions() {
        return Err(ReadFault::Broken(Rule::Transactions));
    }
    if !image.has_inventory() {
        return Err(ReadFault::Broken(Rule::Pages));
    }
    Ok(())
}

/// The rows of a table of an image, in the order of the slots of their records.
///
/// # Errors
///
/// `Broken` only where a rule is broken, with the first one found so; `Memory`.
pub fn table_rows(
    alloc: Global,
    image: &Image,
    table: &Table,
    coding: RowCoding,
) -> Result<TableRows, ReadFault>
    requires { length table.now.shape.columns ≤ MOST_COLUMNS }
    ensures held { IfOk result (λ held. IsTableHeld coding image.now table.now held.rows.items) }
    ensures broken { IfErr result (Refutes (IsReadable coding image.now table.now)) }
{
    let read = read_table(alloc, image, table, coding)?;
    let rows = shown_rows(alloc, image, &read.found)?;
    Ok(TableRows { rows })
}

/// What an image holds of these tables, in their order. Which tables there are is not read, nor are
/// their indexes.
///
/// # Errors
///
/// `Broken` only where a rule is broken, with the first one found so; `Memory`.
pub fn holds(
    alloc: Global,
    image: &Image,
    tables: &[Table],
    coding: RowCoding,
) -> Result<Vec<TableRows>, ReadFault>
    ensures header { IfOk result (λ held. HasHeader image.now.size (pages_in image.now)) }
    ensures transactions { IfOk result (λ held.
        HasTransactions image.now.size (pages_in image.now)) }
    ensures inventory { IfOk result (λ held. HasInventory image.now.size (pages_in image.now)) }
    ensures limbo { IfOk result (λ held. HasNoOldLimbo
        (state_at image.now.size (pages_in image.now)) (pages_in image.now)) }
    ensures tables { IfOk result (λ held. AreHeld coding image.now tables.now held.items) }
    ensures broken { IfErr result (Refutes (IsReadableImage coding image.now tables.now)) }
{
    check_image(image)?;
    let mut held = Vec::new(alloc);
    for table in tables {
        if table.shape.columns.as_slice().len() > MOST_COLUMNS {
            return Err(ReadFault::Broken(Rule::Pages));
        }
        held.push(table_rows(alloc, image, table, coding)?)?;
    }
    if !image.has_no_old_limbo() {
        return Err(ReadFault::Broken(Rule::Drawn));
    }
    Ok(held)
}
