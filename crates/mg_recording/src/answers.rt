//! What results are as answers of events.

ghost use Rattle.std.specs.Prelude.{◌≡◌};
ghost use Rattle.mg_records.specs.Adding.{fine_or, number_or};
ghost use Rattle.mg_records.specs.Writing.{event_of};
ghost use Rattle.mg_recording.specs.Via.{NotesFound};
ghost use Rattle.mg_trace.specs.Putting.{AddsLine};

use mg_base::TxNo;
use mg_expr::Expr;
use mg_model::{Answer, Refusal, Rows};
use mg_records::Write;
use mg_trace::Trace;
use mg_value::Name;

/// The answer that a result without a value is.
pub(crate) fn fine_answer(done: &Result<(), Refusal>) -> Answer
    ensures { result ≡ fine_or done.now }
{
    match done {
        Ok(()) => Answer::Fine,
        Err(refusal) => Answer::No(*refusal),
    }
}

/// The answer that a drawn number is.
pub(crate) fn number_answer(drawn: &Result<TxNo, Refusal>) -> Answer
    ensures { result ≡ number_or drawn.now }
{
    match drawn {
        Ok(t) => Answer::Tx(*t),
        Err(refusal) => Answer::No(*refusal),
    }
}

/// Adds the line of a finding.
pub(crate) fn note_found(
    trace: &mut Trace,
    t: TxNo,
    name: &Name,
    filter: &Option<Expr>,
    rows: &Rows,
    told: &Result<(), Refusal>,
)
    ensures { NotesFound trace.old trace.new t name.now filter.now rows.now told.now }
{
    match told {
        Ok(()) => trace.note_rows(t, name, filter, rows),
        Err(refusal) => trace.note_find(t, name, filter, &Answer::No(*refusal)),
    }
}

/// Adds the line of a write.
pub(crate) fn note_write(trace: &mut Trace, t: TxNo, table: &Name, write: &Write, answer: &Answer)
    ensures { AddsLine trace.old trace.new (event_of t table.now write.now) answer.now }
{
    match write {
        Write::Insert(row) => trace.note_insert(t, table, row, answer),
        Write::Change(key, row) => trace.note_change(t, table, key, row, answer),
        Write::Erase(key) => trace.note_erase(t, table, key, answer),
    }
}
