//! The lines of an opening.

ghost use Rattle.std.specs.Prelude.{◌++◌, codes};
ghost use Rattle.mg_value.specs.Values.{printed};
ghost use Rattle.std.specs.List.{flat_map};
ghost use Rattle.mg_trace.specs.Openings.{bare_text, limbo_line, next_line, opening_text, row_line, what_text};
ghost use Rattle.mg_trace.specs.Putting.{Puts};

use crate::event::put_by;
use crate::trace::Trace;
use mg_base::TxNo;
use mg_model::{LimboChange, Opening, PlacedRow};
use mg_value::{Key, Name, Row};

impl Trace {
    /// Puts the lines of an opening: the number that is drawn next, its rows, and the changes of the transactions in
    /// limbo, each in the order of the lists. Where memory was short, a part of them may stand there.
    pub fn put_opening(&mut self, opening: &Opening)
        ensures { Puts self.old self.new (opening_text opening.now) }
    {
        put_next(self, opening.next);
        put_placed(self, opening.rows.as_slice());
        put_limbo(self, opening.limbo.as_slice());
    }
}

// Puts the number that is drawn next.
fn put_next(trace: &mut Trace, next: TxNo)
    ensures { Puts trace.old trace.new (next_line next.0) }
{
    trace.word("OPEN NEXT ");
    trace.number(u64::from(next.0));
    trace.word("\n");
}

// Puts rows, a line for each.
fn put_placed(trace: &mut Trace, rows: &[PlacedRow])
    ensures { Puts trace.old trace.new (flat_map row_line rows.now) }
{
    for placed in rows {
        put_placed_row(trace, placed);
    }
}

// Puts a row of a table.
fn put_placed_row(trace: &mut Trace, placed: &PlacedRow)
    ensures { Puts trace.old trace.new (row_line placed.now) }
{
    trace.word("OPEN ");
    trace.name(&placed.table);
    put_bare(trace, &placed.row);
    trace.word("\n");
}

// Puts the values of a row behind a blank.
fn put_bare(trace: &mut Trace, row: &Row)
    ensures { Puts trace.old trace.new (bare_text row.now) }
{
    trace.word(" ");
    trace.values(row.as_slice());
}

// Puts changes, a line for each.
fn put_limbo(trace: &mut Trace, changes: &[LimboChange])
    ensures { Puts trace.old trace.new (flat_map limbo_line changes.now) }
{
    for change in changes {
        put_change(trace, change);
    }
}

// Puts a change.
fn put_change(trace: &mut Trace, change: &LimboChange)
    ensures { Puts trace.old trace.new (limbo_line change.now) }
{
    put_by(trace, "LIMBO ", change.by.0);
    trace.word(" ");
    trace.name(&change.table);
    put_what(trace, &change.key, &change.row);
    trace.word("\n");
}

// Puts the row that a key comes to have, or that it is deleted.
fn put_what(trace: &mut Trace, key: &Key, row: &Option<Row>)
    ensures { Puts trace.old trace.new (what_text key.now row.now) }
{
    match row {
        Some(row) => put_bare(trace, row),
        None => put_deleted(trace, key),
    }
}

// Puts that a key is deleted.
fn put_deleted(trace: &mut Trace, key: &Key)
    ensures { Puts trace.old trace.new (codes " DELETE " ++ printed key.now) }
{
    trace.word(" DELETE ");
    trace.value(key.value());
}
