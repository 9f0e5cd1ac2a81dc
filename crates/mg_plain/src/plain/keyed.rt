//! The plain machine finds a row by its key.

ghost use Rattle.std.specs.Prelude.{◌≡◌, IfOk, OnOk, Some, get_or};
ghost use Rattle.mg_value.specs.declared.value.Value.{Value as AnyValue};
ghost use Rattle.mg_value.specs.declared.value.Value.TheVariants.{Null};
ghost use Rattle.mg_model.specs.Changes.{Cells, row_at, same_key as same_key_test};
ghost use Rattle.mg_plain.specs.Keeping.{told_in};
ghost use Rattle.mg_plain.specs.Kept.{kept};
ghost use Rattle.mg_plain.specs.Records.{stand_under as stand_under_place};

use crate::Plain;
use crate::lookup::same_key;
use mg_base::{Memory, TxNo};
use mg_model::{Refusal, Table};
use mg_tending::Keyed;
use mg_value::{Key, Name, Row, Value};

impl Plain {
    /// A copy of the row that a transaction sees at a key of a table.
    fn row_copied(&self, t: u32, table: &Name, key: &Value) -> Result<Option<Row>, Memory>
        ensures { IfOk result (λ row.
            row ≡ row_at ((told_in (kept self.now)).view t) table.now key.now) }
    {
        match self.seen_row(t, table.as_slice(), key) {
            Some(row) => Ok(Some(row.copy(self.alloc)?)),
            None => Ok(None),
        }
    }

    /// The same, where each row of the table stands under the value that it has at a place. Else, as it is with no row
    /// that was written to fit its table, want of memory is told.
    fn row_among(
        &self,
        t: u32,
        table: &Name,
        place: u16,
        key: &Value,
    ) -> Result<Option<Row>, Memory>
        ensures row { IfOk result (λ row.
            row ≡ row_at ((told_in (kept self.now)).view t) table.now key.now) }
        ensures keyed { OnOk result ((k : AnyValue) (row : Cells)
            → row_at ((told_in (kept self.now)).view t) table.now k ≡ Some row → get_or row place Null ≡ k) }
    {
        let rows = self.seen_rows(t, table)?;
        if !stand_under(&rows, place) {
            return Err(Memory);
        }
        self.row_copied(t, table, key)
    }
}

/// Tells whether each row stands under the value that it has at a place.
fn stand_under(rows: &[(Value, Row)], place: u16) -> bool
    ensures { result ≡ stand_under_place place rows.now }
{
    for row in rows {
        if !stands_under(&row.1, place, &row.0) {
            return false;
        }
    }
    true
}

/// Tells whether a row has this value at a place.
fn stands_under(row: &Row, place: u16, key: &Value) -> bool
    ensures { result ≡ same_key_test (get_or row.now place Null) key.now }
{
    match row.as_slice().get(place as usize) {
        Some(value) => same_key(value, key),
        None => same_key(&Value::Null, key),
    }
}

impl Keyed for Plain {
    fn row_with_key(&mut self, t: TxNo, table: &Table, key: &Key) -> Result<Option<Row>, Refusal> {
        match self.expect_active(t) {
            Ok(()) => {}
            Err(refusal) => return Err(refusal),
        }
        match self.row_among(t.0, &table.name, table.shape.key, key.value()) {
            Ok(row) => Ok(row),
            Err(_) => Err(Refusal::Memory),
        }
    }
}
