//! One step of a statement, and what it visited by it is collected.

ghost use Rattle.std.specs.Prelude.{◌≡◌, None};
ghost use Rattle.mg_base.specs.declared.transaction.TxState.TheVariants.{Active};
ghost use Rattle.mg_model.specs.declared.opening.Opening.{Opening};
ghost use Rattle.mg_model.specs.History.{Entries};
ghost use Rattle.mg_model.specs.Machine.{state_of};
ghost use Rattle.mg_records.specs.Sessions.{SessionsStay};
ghost use Rattle.mg_calls.specs.Frames.{Frames};
ghost use Rattle.mg_transcript.specs.Courses.{Course};
ghost use Rattle.mg_transcript.specs.Steps.{Steps};
ghost use Rattle.mg_courses.specs.Aside.{CollectsBehind, IsBehind};
ghost use Rattle.mg_courses.specs.declared.statements.Stepped.TheVariants.{More};
ghost use Rattle.mg_courses.specs.declared.work.Work.TheVariants as works;
ghost use Rattle.mg_courses.specs.Running.{IsReadyIf, refusal_told, over_in};
ghost use Rattle.mg_courses.specs.Working.{IsWorkReady, IsWorkReadyIf, IsWorkAt, IsWorkNearer, WorkDone};

use crate::statements::Stepped;
use crate::tending::Tends;
use crate::work::{Work, refused, step};
use mg_base::TxNo;
use std::alloc::Global;

/// Makes a step of a statement, and collects the record that it visited by it, where it goes on. A refusal of that ends the
/// statement, as the refusal of a visit does.
pub fn step_on<R: Tends>(r: &mut R, alloc: Global, t: TxNo, work: &mut Work<R::Run>) -> Stepped
where
    R::Run: Drop,
    requires ready { IsWorkReady R.meaning R.runs r.old t work.old }
    ensures steps { (o : Opening) (h : Entries) (course : Course) → R.meaning.stands r.old o h
        → state_of o h t.0 ≡ Active → IsWorkAt R.runs r.old o h t work.old course
        → WorkDone R.meaning R.runs r.old r.new o h t work.new result (Steps o h t course) }
    ensures collects { CollectsBehind R.meaning R.runs R.collected r.old r.new t work.old work.new result }
    ensures ready { IsWorkReadyIf R.meaning R.runs r.new t work.new result }
    ensures nearer { IsWorkNearer R.meaning R.runs r.old r.new t work.old work.new result }
    ensures frames { Frames R.meaning r.old r.new t.0 (refusal_told result) }
    ensures sessions { SessionsStay R.meaning r.old r.new None (over_in t.0 result) }
{
    let stepped = step(r, alloc, t, work);
    collect_behind(r, t, work, stepped)
}

// Collects what a statement visited, where it goes on at once.
fn collect_behind<R: Tends>(r: &mut R, t: TxNo, work: &Work<R::Run>, stepped: Stepped) -> Stepped
    requires ready { IsWorkReadyIf R.meaning R.runs r.old t work.now stepped }
    ensures { IsBehind R.meaning R.runs R.collected r.old r.new t work.now stepped result }
{
    match work {
        Work::Statement(run) => collect_if_more(r, t, run, stepped),
        Work::Commit { written: _ } => stepped,
    }
}

// Collects what a statement visited, which is no COMMIT.
fn collect_if_more<R: Tends>(r: &mut R, t: TxNo, run: &R::Run, stepped: Stepped) -> Stepped
    requires ready { IsReadyIf R.runs r.old t run.now stepped }
    ensures { IsBehind R.meaning R.runs R.collected r.old r.new t (works.Statement run.now) stepped result }
{
    match stepped {
        Stepped::More => collect_now(r, t, run),
        Stepped::Waits(on) => Stepped::Waits(on),
        Stepped::Ended(ending) => Stepped::Ended(ending),
    }
}

// Collects what a statement that goes on has visited.
fn collect_now<R: Tends>(r: &mut R, t: TxNo, run: &R::Run) -> Stepped
    requires ready { R.runs.is_ready r.old t run.now }
    ensures { IsBehind R.meaning R.runs R.collected r.old r.new t (works.Statement run.now) More result }
{
    match r.collect_visited(t, run) {
        Ok(()) => Stepped::More,
        Err(refusal) => Stepped::Ended(refused(refusal)),
    }
}
