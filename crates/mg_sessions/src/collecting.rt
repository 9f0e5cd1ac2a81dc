//! Old versions of all records go.

ghost use Rattle.std.specs.Prelude.{ℕ, List};
ghost use Rattle.mg_model.specs.declared.opening.Opening.{Opening};
ghost use Rattle.mg_model.specs.History.{Entries};
ghost use Rattle.mg_script.specs.declared.line.LineKind.TheVariants as kinds;
ghost use Rattle.mg_transcript.specs.Lines.{Does};
ghost use Rattle.mg_transcript.specs.Sessions.{Unfinished};
ghost use Rattle.mg_courses.specs.Running.{refusal_answered};
ghost use Rattle.mg_pending.specs.Standing.{AreReady, StandAt};
ghost use Rattle.mg_sessions.specs.Accounts.{Accounts};
ghost use Rattle.mg_sessions.specs.Coming.{ComesTo};

use mg_courses::Tends;
use mg_pending::Sessions;
use mg_rows::{Outcome, StatementFault};
use mg_script::Reply;

/// Obeys `@collect`: each record of each committed table is collected.
pub(crate) fn obey_collect<R: Tends>(r: &mut R, sessions: &Sessions<R::Run>) -> Reply
    requires ready { AreReady R.meaning R.runs r.old sessions.now.transactions sessions.now.pending.items }
    ensures does { (o : Opening) (h : Entries) (us : List Unfinished) (size : ℕ)
        → StandAt R.meaning R.runs r.old o h sessions.now.transactions sessions.now.pending.items us
        → ComesTo R.meaning R.runs r.old r.new o h sessions.now.transactions sessions.now.pending.items
        (Does o h size us kinds.Collect result) }
    ensures ready { AreReady R.meaning R.runs r.new sessions.now.transactions sessions.now.pending.items }
    ensures accounts { Accounts R.meaning r.old r.new (refusal_answered result) }
{
    match r.collect_all() {
        Ok(()) => Reply::Ok(Outcome::Fine),
        Err(refusal) => Reply::No(StatementFault::Engine(refusal)),
    }
}
