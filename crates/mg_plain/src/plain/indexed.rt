//! The plain machine walks by the indexes of tables: of the rows that a transaction sees it takes those in the range.

ghost use Rattle.std.specs.Prelude.{◌≡◌, ◌++◌, ◌∷◌, [], IfOk, Ok, OnOk};
ghost use Rattle.std.specs.List.{filter};
ghost use Rattle.mg_indexed.specs.Indexing.{lies_within as lies_within_test};
ghost use Rattle.mg_paths.specs.Plans.{column_at};
ghost use Rattle.mg_records.specs.Reading.{FindsFitting};
ghost use Rattle.mg_plain.specs.Indexed.{by_index_follows, each_by_index, indexing_plain, rows_ranged};
ghost use Rattle.mg_plain.specs.Kept.{kept};
ghost use Rattle.mg_plain.specs.Records.{FoundAt};

use crate::Plain;
use crate::plain::records::{keyed, number_behind};
use mg_base::{Memory, TxNo};
use mg_indexed::Indexed;
use mg_model::{Index, Refusal, Table};
use mg_paths::Range;
use mg_records::Found;
use mg_value::{Row, Value};
use std::alloc::Global;

/// The column of the index at a place, 0 past the last one.
fn index_column(indexes: &[Index], place: usize) -> u16
    ensures { result ≡ column_at indexes.now place }
{
    match indexes.get(place) {
        Some(index) => index.column,
        None => 0,
    }
}

/// Tells whether a row's value in a column lies in a range.
fn lies_within(row: &(Value, Row), column: u16, range: &Range) -> bool
    ensures { result ≡ lies_within_test column range.now row.now }
{
    match row.1.as_slice().get(column as usize) {
        Some(value) => range.contains(value),
        None => range.contains(&Value::Null),
    }
}

/// Takes a copy of a row, if its value in a column lies in a range.
fn take_within(
    alloc: Global,
    taken: &mut Vec<(Value, Row)>,
    row: &(Value, Row),
    column: u16,
    range: &Range,
) -> Result<(), Memory>
    ensures { OnOk result (taken.new.items
        ≡ taken.old.items ++ filter (lies_within_test column range.now) (row.now ∷ [])) }
{
    if lies_within(row, column, range) {
        taken.push((row.0.copy(alloc)?, row.1.copy(alloc)?))?;
    }
    Ok(())
}

/// Copies of the rows whose value in a column lies in a range.
fn all_within(
    alloc: Global,
    rows: &[(Value, Row)],
    column: u16,
    range: &Range,
) -> Result<Vec<(Value, Row)>, Memory>
    ensures { IfOk result (λ taken. taken.items ≡ filter (lies_within_test column range.now) rows.now) }
{
    let mut taken = Vec::new(alloc);
    for row in rows {
        take_within(alloc, &mut taken, row, column, range)?;
    }
    Ok(taken)
}

impl Plain {
    /// The rows of a table that a transaction sees and that lie in a range of an index, in key order.
    fn rows_in_range(
        &self,
        t: u32,
        table: &Table,
        index: usize,
        range: &Range,
    ) -> Result<Vec<(Value, Row)>, Memory>
        ensures { IfOk result (λ rows. rows.items ≡ rows_ranged (kept self.now) t table.now index range.now) }
    {
        let rows = self.seen_rows(t, &table.name)?;
        let column = index_column(table.indexes.as_slice(), index);
        all_within(self.alloc, &rows, column, range)
    }

    /// A copy of the row with a number among those in the range, None past the last one.
    ///
    /// A row that may not stand in the table, as none does that was written, is told as want of memory.
    fn ranged_at(
        &self,
        t: u32,
        table: &Table,
        index: usize,
        range: &Range,
        at: usize,
    ) -> Result<Option<Found<usize>>, Memory>
        ensures found { FoundAt (rows_ranged (kept self.now) t table.now index range.now) at result }
        ensures fits { IfOk result (λ found. FindsFitting table.now.shape (Ok found)) }
    {
        let rows = self.rows_in_range(t, table, index, range)?;
        if at >= rows.len() {
            return Ok(None);
        }
        match rows.get(at) {
            Some(row) => Ok(Some(Found {
                place: at + 1,
                row: Some(keyed(self.alloc, &table.shape, row)?),
            })),
            None => Ok(None),
        }
    }
}

impl Indexed for Plain {
    type Entry = usize;

    ghost indexing = { indexing_plain };

    fn copy_entry(_alloc: Global, entry: &usize) -> Result<usize, Memory> {
        Ok(*entry)
    }

    fn index_step(
        &mut self,
        t: TxNo,
        table: &Table,
        index: usize,
        range: &Range,
        after: Option<&usize>,
    ) -> Result<Option<Found<usize>>, Refusal> {
        match self.expect_active(t) {
            Ok(()) => {}
            Err(refusal) => return Err(refusal),
        }
        let place = number_behind(after);
        match self.ranged_at(t.0, table, index, range, place) {
            Ok(found) => Ok(found),
            Err(_) => Err(Refusal::Memory),
        }
    }

    ghost each = { each_by_index };

    ghost follow = { by_index_follows };
}
