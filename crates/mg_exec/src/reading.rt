//! The steps of a statement that finds rows.

ghost use Rattle.std.specs.Prelude.{◌≡◌, ◌+◌, IfOk, Some, None, Err, length};
ghost use Rattle.mg_model.specs.declared.answer.Answer.TheVariants.{Rows as Found};
ghost use Rattle.mg_model.specs.declared.event.Event.TheVariants.{Find};
ghost use Rattle.mg_model.specs.declared.opening.Opening.{Opening};
ghost use Rattle.mg_model.specs.Answers.{answer as answer_to};
ghost use Rattle.mg_model.specs.History.{Entries};
ghost use Rattle.mg_statements.specs.Plain.{tree_in};
ghost use Rattle.mg_records.specs.Keeping.{TablesStay, refusal_in};
ghost use Rattle.mg_records.specs.Reading.{FindAdds};
ghost use Rattle.mg_rows.specs.Found.{Keeps, passes_filter};
ghost use Rattle.mg_calls.specs.Frames.{Frames};
ghost use Rattle.mg_calls.specs.Quiet.{AreCalm, AreQuiet, IsQuietAt};
ghost use Rattle.mg_plan.specs.Plans.{filter_in};
ghost use Rattle.mg_exec.specs.Phases.{AllKeptMayStand, AllMayStand, HasRead, IsBoundTo, IsReadyToRead, Leaves, ended as ended_by, rolled_back_at};
ghost use Rattle.mg_exec.specs.Progress.{IsBehind, Nears};
ghost use Rattle.mg_exec.specs.Reading.{AreInOrder, Ends, IsWhatIsFound, KeepsRow, GoesOnWith, Reads};
ghost use Rattle.mg_exec.specs.declared.phase.Phase.TheVariants as phases;

use crate::changing::start_to_write;
use crate::ending::{ended, refused};
use crate::parts::is_select;
use crate::phase::{Phase, Reading, Step, Turn};
use crate::selecting::{answer, as_answer};
use mg_base::{Memory, TxNo};
use mg_calls::{Visit, Walk, visit_next};
use mg_expr::EvalFault;
use mg_model::{Refusal, Rows, Table};
use mg_plan::{Bound, filter_of, let_go};
use mg_records::Records;
use mg_rows::{StatementFault, keep, sort_by_key};
use mg_statements::Statement;
use mg_value::{Key, Row};
use std::alloc::Global;

/// Keeps a row with its key, where it passes the filter of a statement.
fn keep_passed(
    alloc: Global,
    s: &Statement,
    key: Key,
    row: Row,
    kept: &mut Vec<(Key, Row)>,
) -> Result<(), EvalFault>
    ensures { Keeps (passes_filter (tree_in (filter_in s.now)) row) (key, row) kept.old.items kept.new.items result }
{
    let none = None;
    keep(alloc, filter_of(s, &none), key, row, kept)
}

/// A reading that comes to nothing, for this fault.
fn stop<P: Drop>(reading: Reading<P>, fault: StatementFault) -> Turn<P>
    ensures { result ≡ ended_by (Err fault) }
{
    let Reading {
        walk: _walk,
        bound,
        kept: _kept,
    } = reading;
    let_go(bound);
    ended(Err(fault))
}

/// Keeps the row of a record that was visited, where it passes the statement's filter.
fn keep_row<P: Drop>(alloc: Global, reading: Reading<P>, keyed: (Key, Row)) -> Turn<P>
    ensures { KeepsRow reading keyed result.phase result.answer }
{
    let mut reading = reading;
    let (key, row) = keyed;
    match keep_passed(alloc, &reading.bound.statement, key, row, &mut reading.kept) {
        Ok(()) => Turn {
            phase: Phase::Reading(reading),
            answer: Ok(Step::More),
        },
        Err(fault) => stop(reading, StatementFault::from(fault)),
    }
}

/// The rows that were kept, in the order of their keys.
fn in_order(alloc: Global, kept: Vec<(Key, Row)>) -> Result<Rows, Memory>
    ensures { IfOk result (AreInOrder kept.items) }
{
    let mut kept = kept;
    sort_by_key(&mut kept);
    let mut rows = Vec::new(alloc);
    for (_, row) in kept {
        rows.push(row)?;
    }
    Ok(Rows::new(rows))
}

/// A statement that has told which rows it found goes on with them.
fn go_on<R: Records>(
    r: &mut R,
    alloc: Global,
    t: TxNo,
    table: Table,
    bound: &Bound,
    rows: &Rows,
) -> Turn<R::Place>
where
    R::Place: Drop,
    requires table { R.meaning.table r.old t.0 table.name ≡ Some table }
    requires binds { IsBoundTo table bound.now }
    requires rows { AllMayStand table.shape rows.now }
    ensures goes { (o : Opening) (h : Entries) → R.meaning.stands r.old o h
        → GoesOnWith R.meaning r.new o h t table bound.now rows.now result }
    ensures behind { IsBehind (length rows.now + 1) result }
    ensures leaves { Leaves R.meaning r.old r.new t.0 result }
    ensures quiet { AreQuiet R.meaning r.old r.new (rolled_back_at t.0 result.phase) }
{
    if is_select(&bound.statement) {
        return ended(as_answer(answer(alloc, &table, bound, rows.as_slice())));
    }
    start_to_write(r, alloc, t, table, bound, rows.as_slice())
}

/// Tells the keeper which rows a statement found.
fn tell<R: Records>(
    r: &mut R,
    t: TxNo,
    table: &Table,
    s: &Statement,
    rows: &Rows,
) -> Result<(), Refusal>
    ensures adds { FindAdds R.meaning r.old r.new t table.now.name (filter_in s.now) rows.now result }
    ensures stays { TablesStay R.meaning r.old r.new None }
    ensures frames { Frames R.meaning r.old r.new t.0 (refusal_in result) }
    ensures calm { AreCalm R.meaning r.old r.new None }
    ensures quiet { (o : Opening) (h : Entries) → R.meaning.stands r.old o h
        → answer_to o h (Find t table.now.name (filter_in s.now)) ≡ Found rows.now
        → IsQuietAt R.meaning r.old r.new o h }
{
    let none = None;
    r.found(t, &table.name, filter_of(s, &none), rows)
}

/// A statement that has visited all records of its table and kept these rows: what it found is told,
/// and the statement goes on with it.
fn end_reading<R: Records>(
    r: &mut R,
    alloc: Global,
    t: TxNo,
    table: Table,
    bound: &Bound,
    kept: Vec<(Key, Row)>,
) -> Turn<R::Place>
where
    R::Place: Drop,
    requires table { R.meaning.table r.old t.0 table.name ≡ Some table }
    requires binds { IsBoundTo table bound.now }
    requires rows { AllKeptMayStand table.shape kept.items }
    ensures ends { (o : Opening) (h : Entries) → R.meaning.stands r.old o h
        → Ends R.meaning r.new o h t table bound.now kept.items result }
    ensures behind { IsBehind (length kept.items + 1) result }
    ensures leaves { Leaves R.meaning r.old r.new t.0 result }
    ensures quiet { (o : Opening) (h : Entries) → R.meaning.stands r.old o h
        → IsWhatIsFound o h t table bound.now kept.items → IsQuietAt R.meaning r.old r.new o h }
{
    let rows = match in_order(alloc, kept) {
        Ok(rows) => rows,
        Err(_) => return refused(Refusal::Memory),
    };
    match tell(r, t, &table, &bound.statement, &rows) {
        Ok(()) => go_on(r, alloc, t, table, bound, &rows),
        Err(refusal) => refused(refusal),
    }
}

/// A reading that has visited all records.
fn finish<R: Records>(
    r: &mut R,
    alloc: Global,
    t: TxNo,
    reading: Reading<R::Place>,
) -> Turn<R::Place>
where
    R::Place: Drop,
    requires ready { IsReadyToRead R.meaning r.old t.0 reading }
    ensures ends { (o : Opening) (h : Entries) → R.meaning.stands r.old o h
        → Ends R.meaning r.new o h t reading.walk.table reading.bound reading.kept.items result }
    ensures behind { IsBehind (length reading.kept.items + 1) result }
    ensures leaves { Leaves R.meaning r.old r.new t.0 result }
    ensures quiet { (o : Opening) (h : Entries) → R.meaning.stands r.old o h
        → IsWhatIsFound o h t reading.walk.table reading.bound reading.kept.items
        → IsQuietAt R.meaning r.old r.new o h }
{
    let Reading { walk, bound, kept } = reading;
    let Walk { table, place: _ } = walk;
    let turn = end_reading(r, alloc, t, table, &bound, kept);
    let_go(bound);
    turn
}

/// A step of a statement that finds rows: it visits one further record, or it is at its end.
pub fn read<R: Records>(
    r: &mut R,
    alloc: Global,
    t: TxNo,
    reading: Reading<R::Place>,
) -> Turn<R::Place>
where
    R::Place: Drop,
    requires ready { IsReadyToRead R.meaning r.old t.0 reading }
    ensures reads { (o : Opening) (h : Entries) → R.meaning.stands r.old o h
        → HasRead R.meaning r.old o h t.0 reading
        → Reads R.meaning r.new o h t reading.walk.table reading.bound (length reading.kept.items) result }
    ensures nears { Nears R.meaning r.old r.new t.0 (phases.Reading reading) result }
    ensures leaves { Leaves R.meaning r.old r.new t.0 result }
    ensures quiet { (o : Opening) (h : Entries) → R.meaning.stands r.old o h
        → HasRead R.meaning r.old o h t.0 reading → IsQuietAt R.meaning r.old r.new o h }
{
    let mut reading = reading;
    match visit_next(r, t, &mut reading.walk) {
        Ok(Visit::Record(Some(keyed))) => keep_row(alloc, reading, keyed),
        Ok(Visit::Record(None)) => Turn {
            phase: Phase::Reading(reading),
            answer: Ok(Step::More),
        },
        Ok(Visit::End) => finish(r, alloc, t, reading),
        Err(refusal) => stop(reading, StatementFault::Engine(refusal)),
    }
}
