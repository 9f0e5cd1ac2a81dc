//! One step of a statement.

ghost use Rattle.std.specs.Prelude.{◌≡◌, true, false, None};
ghost use Rattle.mg_base.specs.declared.transaction.TxState.TheVariants.{Active};
ghost use Rattle.mg_model.specs.declared.opening.Opening.{Opening};
ghost use Rattle.mg_model.specs.History.{Entries};
ghost use Rattle.mg_model.specs.Machine.{state_of};
ghost use Rattle.mg_records.specs.Sessions.{SessionsStay};
ghost use Rattle.mg_rows.specs.declared.outcome.Outcome.TheVariants as outcomes;
ghost use Rattle.mg_rows.specs.declared.statement_fault.StatementFault.TheVariants.{Engine};
ghost use Rattle.mg_script.specs.declared.reply.Reply.TheVariants as replies;
ghost use Rattle.mg_calls.specs.Frames.{Frames};
ghost use Rattle.mg_transcript.specs.Courses.{Course, Committing};
ghost use Rattle.mg_transcript.specs.Steps.{Steps};
ghost use Rattle.mg_courses.specs.Running.{refusal_told, over_in};
ghost use Rattle.mg_courses.specs.declared.work.Work.TheVariants as works;
ghost use Rattle.mg_courses.specs.Working.{IsCommitReady, IsWorkReady, IsWorkReadyIf, IsWorkAt, IsWorkNearer, WorkDone};

use crate::statements::{Ending, Statements, Stepped};
use mg_base::TxNo;
use mg_model::Refusal;
use mg_rows::{Outcome, StatementFault};
use mg_script::Reply;
use std::alloc::Global;

/// A statement that has begun and is not at its end.
#[derive(Drop)]
pub enum Work<P> {
    Statement(P),
    /// A COMMIT: whether all pages that it needs are written.
    Commit { written: bool },
}

/// A statement that is refused, and whose transaction goes on.
pub(crate) fn refused(refusal: Refusal) -> Ending
    ensures reply { result.reply ≡ replies.No (Engine refusal) }
    ensures over { result.over ≡ false }
{
    Ending {
        reply: Reply::No(StatementFault::Engine(refusal)),
        over: false,
    }
}

/// A statement by which its transaction has come to its end.
pub(crate) fn over() -> Ending
    ensures reply { result.reply ≡ replies.Ok outcomes.Fine }
    ensures over { result.over ≡ true }
{
    Ending {
        reply: Reply::Ok(Outcome::Fine),
        over: true,
    }
}

/// Makes a step of a statement.
pub fn step<R: Statements>(r: &mut R, alloc: Global, t: TxNo, work: &mut Work<R::Run>) -> Stepped
where
    R::Run: Drop,
    requires ready { IsWorkReady R.meaning R.runs r.old t work.old }
    ensures steps { (o : Opening) (h : Entries) (course : Course) → R.meaning.stands r.old o h
        → state_of o h t.0 ≡ Active → IsWorkAt R.runs r.old o h t work.old course
        → WorkDone R.meaning R.runs r.old r.new o h t work.new result (Steps o h t course) }
    ensures ready { IsWorkReadyIf R.meaning R.runs r.new t work.new result }
    ensures nearer { IsWorkNearer R.meaning R.runs r.old r.new t work.old work.new result }
    ensures frames { Frames R.meaning r.old r.new t.0 (refusal_told result) }
    ensures sessions { SessionsStay R.meaning r.old r.new None (over_in t.0 result) }
{
    match work {
        Work::Statement(run) => r.step(alloc, t, run),
        Work::Commit { written } => step_commit(r, t, written),
    }
}

// Makes a step of a COMMIT: a page is written, or the transaction committed.
fn step_commit<R: Statements>(r: &mut R, t: TxNo, written: &mut bool) -> Stepped
where
    R::Run: Drop,
    requires ready { IsCommitReady R.meaning r.old t written.old }
    ensures steps { (o : Opening) (h : Entries) → R.meaning.stands r.old o h
        → state_of o h t.0 ≡ Active
        → WorkDone R.meaning R.runs r.old r.new o h t (works.Commit written.new) result
        (Steps o h t (Committing written.old)) }
    ensures ready { IsWorkReadyIf R.meaning R.runs r.new t (works.Commit written.new) result }
    ensures nearer { IsWorkNearer R.meaning R.runs r.old r.new t (works.Commit written.old)
        (works.Commit written.new) result }
    ensures frames { Frames R.meaning r.old r.new t.0 (refusal_told result) }
    ensures sessions { SessionsStay R.meaning r.old r.new None (over_in t.0 result) }
{
    if *written {
        return match r.commit_end(t) {
            Ok(()) => Stepped::Ended(over()),
            Err(refusal) => Stepped::Ended(refused(refusal)),
        };
    }
    match r.commit_step(t) {
        Ok(all) => {
            *written = all;
            Stepped::More
        }
        Err(refusal) => Stepped::Ended(refused(refusal)),
    }
}
