//! The rows of the catalog that a new table gives are noted.

ghost use Rattle.std.specs.Prelude.{◌≡◌, ◌≤◌, false, IfOk, length};
ghost use Rattle.mg_value.specs.declared.shape.TheConstants.{MOST_COLUMNS};
ghost use Rattle.mg_records.specs.Writing.{rows_made as rows_made_of};
ghost use Rattle.mg_recording.specs.Making.{NotesMade, NotesRows};

use mg_base::{Memory, PageNo, TxNo};
use mg_catalog::rows_of;
use mg_model::{Answer, CATALOG, Indexes, Refusal, Table};
use mg_trace::Trace;
use mg_value::{Name, Row, Shape};
use std::alloc::Global;

/// Adds the lines of the rows that say a new table. The trace stops where the table was refused, or where
/// memory is short.
pub(crate) fn note_table(
    trace: &mut Trace,
    t: TxNo,
    name: &Name,
    shape: &Shape,
    made: &Result<(), Refusal>,
)
    requires { length shape.now.columns ≤ MOST_COLUMNS }
    ensures { NotesMade trace.old trace.new t name.now shape.now made.now }
{
    if made.is_err() {
        return trace.stop();
    }
    let Some(catalog) = Name::new(CATALOG) else {
        return trace.stop();
    };
    match rows_made(*trace.text.allocator(), name, shape) {
        Ok(rows) => note_rows(trace, t, &catalog, &rows),
        Err(_) => trace.stop(),
    }
}

// Adds the lines of new rows.
fn note_rows(trace: &mut Trace, t: TxNo, catalog: &Name, rows: &[Row])
    ensures { NotesRows trace.old trace.new t catalog.now rows.now }
{
    for row in rows {
        trace.note_insert(t, catalog, row, &Answer::Fine);
    }
}

// The rows of the catalog that say a new table, that of the table first.
fn rows_made(alloc: Global, name: &Name, shape: &Shape) -> Result<Vec<Row>, Memory>
    requires { length shape.now.columns ≤ MOST_COLUMNS }
    ensures { IfOk result (λ rows. rows.items ≡ rows_made_of name.now shape.now) }
{
    let table = Table {
        name: *name,
        shape: shape.copy(alloc)?,
        pointer: PageNo(0),
        indexes: Indexes::new(Vec::new(alloc)),
    };
    let mut rows = rows_of(alloc, &table)?;
    let Some(first) = rows.pop() else {
        return Err(Memory);
    };
    rows.insert(0, first)?;
    Ok(rows)
}
