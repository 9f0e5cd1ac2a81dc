//! Statements that are held.

ghost use Rattle.std.specs.Prelude.{◌≡◌, ◌<◌, ◌≤◌, ℕ, List, ◌++◌, slice_index_or, length};
ghost use Rattle.std.specs.List.{remove};
ghost use Rattle.mg_model.specs.declared.opening.Opening.{Opening};
ghost use Rattle.mg_model.specs.History.{Entries};
ghost use Rattle.mg_script.specs.declared.line.LineKind.TheVariants as kinds;
ghost use Rattle.mg_script.specs.declared.line.TheConstants.{SESSIONS};
ghost use Rattle.mg_transcript.specs.Courses.{Later};
ghost use Rattle.mg_transcript.specs.Lines.{Does};
ghost use Rattle.mg_transcript.specs.Sessions.{Unfinished};
ghost use Rattle.mg_transcript.specs.Steps.{Runs};
ghost use Rattle.mg_courses.specs.Running.{refusal_answered};
ghost use Rattle.mg_pending.specs.declared.pending.Pending.{Pending as PendingOf};
ghost use Rattle.mg_pending.specs.AgreeLaws.{SplitAt};
ghost use Rattle.mg_pending.specs.Standing.{AreReady, StandAt};
ghost use Rattle.mg_sessions.specs.Accounts.{Accounts};
ghost use Rattle.mg_sessions.specs.Coming.{ComesTo, IsKept};
ghost use Rattle.mg_sessions.specs.Moves.{Moves};

use crate::statements::go_on;
use mg_courses::{Tends, take};
use mg_pending::{Sessions, held_by};
use mg_rows::StatementFault;
use mg_script::{Reply, Session};
use mg_transcript::Spoken;
use std::alloc::Global;

/// Obeys `@step A n`: so many steps of the statement that a session holds.
pub(crate) fn obey_step<R: Tends>(
    r: &mut R,
    alloc: Global,
    sessions: &mut Sessions<R::Run>,
    session: Session,
    most: u32,
) -> Reply
where
    R::Run: Drop,
    requires ready { AreReady R.meaning R.runs r.old sessions.old.transactions sessions.old.pending.items }
    requires some { 1 ≤ most }
    requires lettered { session.0 < SESSIONS }
    ensures does { (o : Opening) (h : Entries) (us : List Unfinished) (size : ℕ)
        → StandAt R.meaning R.runs r.old o h sessions.old.transactions sessions.old.pending.items us
        → ComesTo R.meaning R.runs r.old r.new o h sessions.new.transactions sessions.new.pending.items
        (Does o h size us (kinds.Step session most) result) }
    ensures ready { AreReady R.meaning R.runs r.new sessions.new.transactions sessions.new.pending.items }
    ensures accounts { Accounts R.meaning r.old r.new (refusal_answered result) }
{
    let place = match held_by(&sessions.pending, session) {
        Some(place) => place,
        None => return Reply::No(StatementFault::NothingHeld),
    };
    let held = sessions.take_out(place);
    let mut work = held.work;
    let stepped = take(r, alloc, held.transaction, &mut work, most);
    sessions.keep(session, held.transaction, work, stepped)
}

/// Obeys `@go A`: the statement that a session holds goes on until it waits or is at its end.
pub(crate) fn obey_go<R: Tends>(
    r: &mut R,
    alloc: Global,
    sessions: &mut Sessions<R::Run>,
    session: Session,
) -> Reply
where
    R::Run: Drop,
    requires ready { AreReady R.meaning R.runs r.old sessions.old.transactions sessions.old.pending.items }
    requires lettered { session.0 < SESSIONS }
    ensures does { (o : Opening) (h : Entries) (us : List Unfinished) (size : ℕ)
        → StandAt R.meaning R.runs r.old o h sessions.old.transactions sessions.old.pending.items us
        → ComesTo R.meaning R.runs r.old r.new o h sessions.new.transactions sessions.new.pending.items
        (Does o h size us (kinds.Go session) result) }
    ensures ready { AreReady R.meaning R.runs r.new sessions.new.transactions sessions.new.pending.items }
    ensures accounts { Accounts R.meaning r.old r.new (refusal_answered result) }
{
    let place = match held_by(&sessions.pending, session) {
        Some(place) => place,
        None => return Reply::No(StatementFault::NothingHeld),
    };
    resume(r, alloc, sessions, place).reply
}

/// The statement at a place goes on until it waits or is at its end.
pub fn resume<R: Tends>(
    r: &mut R,
    alloc: Global,
    sessions: &mut Sessions<R::Run>,
    place: usize,
) -> Spoken
where
    R::Run: Drop,
    requires ready { AreReady R.meaning R.runs r.old sessions.old.transactions sessions.old.pending.items }
    requires inside { place < length sessions.old.pending.items }
    ensures does { (o : Opening) (h : Entries) (us : List Unfinished) (d : PendingOf R.Run)
        → StandAt R.meaning R.runs r.old o h sessions.old.transactions sessions.old.pending.items us
        → (s : SplitAt R.runs r.old o h sessions.old.pending.items place d us)
        → ComesTo R.meaning R.runs r.old r.new o h sessions.new.transactions sessions.new.pending.items
        (IsKept s.one.session s.one.transaction (s.before ++ s.behind)
        (Runs o s.one.transaction h (Later s.one.course)) result.reply) }
    ensures moves { Moves sessions.old.transactions sessions.new.transactions
        (remove sessions.old.pending.items place) sessions.new.pending.items }
    ensures session { (d : PendingOf R.Run)
        → result.session ≡ (slice_index_or sessions.old.pending.items place d).session }
    ensures lettered { result.session.0 < SESSIONS }
    ensures ready { AreReady R.meaning R.runs r.new sessions.new.transactions sessions.new.pending.items }
    ensures accounts { Accounts R.meaning r.old r.new (refusal_answered result.reply) }
{
    let waiting = sessions.take_out(place);
    let session = waiting.session;
    Spoken {
        session,
        reply: go_on(
            r,
            alloc,
            sessions,
            session,
            waiting.transaction,
            waiting.work,
        ),
    }
}
