//! The writes of a statement.

ghost use Rattle.std.specs.Prelude.{◌≡◌, ◌+◌, All, Some, length};
ghost use Rattle.mg_model.specs.declared.opening.Opening.{Opening};
ghost use Rattle.mg_model.specs.History.{Entries};
ghost use Rattle.mg_records.specs.Writing.{FitsShape};
ghost use Rattle.mg_calls.specs.Steps.{AreReady};
ghost use Rattle.mg_calls.specs.Quiet.{AreQuiet};
ghost use Rattle.mg_exec.specs.Phases.{AllMayStand, IsBoundTo, Leaves, rolled_back_at};
ghost use Rattle.mg_exec.specs.Progress.{IsBehind, MakesOneWrite};
ghost use Rattle.mg_exec.specs.Changing.{turned as turned_by, BeginsToWrite, Changes, StartsToWrite};

use crate::ending::{ended, refused, rolled_back};
use crate::making::make_writes;
use crate::phase::{Changing, Phase, Step, Turn};
use mg_base::TxNo;
use mg_calls::{Writes, Wrote, mark_and_write, write_next};
use mg_model::{Refusal, Table};
use mg_plan::Bound;
use mg_records::{Records, Write};
use mg_rows::{Outcome, StatementFault};
use mg_value::Row;
use std::alloc::Global;
use std::collections::VecDeque;

/// Where a statement stands after a step that writes.
pub fn turned<P: Drop>(changing: Changing, wrote: Wrote) -> Turn<P>
    ensures { result ≡ turned_by changing wrote }
{
    match wrote {
        Wrote::More => Turn {
            phase: Phase::Changing(changing),
            answer: Ok(Step::More),
        },
        Wrote::Done => ended(Ok(Step::Done(Outcome::Count(changing.count)))),
        Wrote::Waits(on) => Turn {
            phase: Phase::Changing(changing),
            answer: Err(StatementFault::Engine(Refusal::Waits { on })),
        },
        Wrote::Refused(refusal) => refused(refusal),
        Wrote::RolledBack(refusal) => rolled_back(refusal),
    }
}

/// A step of a statement that has set its mark: it makes its next write.
pub fn change<R: Records>(r: &mut R, t: TxNo, changing: Changing) -> Turn<R::Place>
where
    R::Place: Drop,
    requires ready { AreReady R.meaning r.old t.0 changing.writes }
    ensures changes { (o : Opening) (h : Entries) → R.meaning.stands r.old o h
        → Changes R.meaning r.new o h t changing result }
    ensures fewer { MakesOneWrite changing result }
    ensures leaves { Leaves R.meaning r.old r.new t.0 result }
    ensures quiet { AreQuiet R.meaning r.old r.new (rolled_back_at t.0 result.phase) }
{
    let mut changing = changing;
    let wrote = write_next(r, t, &mut changing.writes);
    turned(changing, wrote)
}

/// The first step of a statement that writes, with the writes that it makes: it sets its mark, and
/// makes the first of them.
fn begin_to_write<R: Records>(
    r: &mut R,
    t: TxNo,
    table: Table,
    made: VecDeque<Write>,
) -> Turn<R::Place>
where
    R::Place: Drop,
    requires table { R.meaning.table r.old t.0 table.name ≡ Some table }
    requires fits { All (FitsShape table.shape) made.items }
    ensures begins { (o : Opening) (h : Entries) → R.meaning.stands r.old o h
        → BeginsToWrite R.meaning r.new o h t table made.items result }
    ensures behind { IsBehind (length made.items) result }
    ensures leaves { Leaves R.meaning r.old r.new t.0 result }
    ensures quiet { AreQuiet R.meaning r.old r.new (rolled_back_at t.0 result.phase) }
{
    let mut changing = Changing {
        count: made.len() as u64,
        writes: Writes { table, left: made },
    };
    let wrote = mark_and_write(r, t, &mut changing.writes);
    turned(changing, wrote)
}

/// A statement that has all its rows makes its writes of them, and begins to write.
pub fn start_to_write<R: Records>(
    r: &mut R,
    alloc: Global,
    t: TxNo,
    table: Table,
    bound: &Bound,
    found: &[Row],
) -> Turn<R::Place>
where
    R::Place: Drop,
    requires table { R.meaning.table r.old t.0 table.name ≡ Some table }
    requires binds { IsBoundTo table bound.now }
    requires rows { AllMayStand table.shape found.now }
    ensures starts { (o : Opening) (h : Entries) → R.meaning.stands r.old o h
        → StartsToWrite R.meaning r.new o h t table bound.now found.now result }
    ensures behind { IsBehind (length found.now + 1) result }
    ensures leaves { Leaves R.meaning r.old r.new t.0 result }
    ensures quiet { AreQuiet R.meaning r.old r.new (rolled_back_at t.0 result.phase) }
{
    match make_writes(alloc, &table, bound, found) {
        Ok(made) => begin_to_write(r, t, table, made),
        Err(fault) => ended(Err(StatementFault::from(fault))),
    }
}
