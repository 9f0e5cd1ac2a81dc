//! One step of a statement that has begun, and what it visited by it is collected.

ghost use Rattle.std.specs.Prelude.{◌≡◌, ◌<◌, ◌++◌, ℕ, List, length};
ghost use Rattle.mg_model.specs.declared.opening.Opening.{Opening};
ghost use Rattle.mg_model.specs.History.{Entries};
ghost use Rattle.mg_transcript.specs.Sessions.{Unfinished};
ghost use Rattle.mg_transcript.specs.Steps.{Steps};
ghost use Rattle.mg_courses.specs.Running.{refusal_answered};
ghost use Rattle.mg_pending.specs.declared.pending.Pending.{Pending as PendingOf};
ghost use Rattle.mg_pending.specs.AgreeLaws.{SplitAt};
ghost use Rattle.mg_pending.specs.Standing.{AreReady, StandAt};
ghost use Rattle.mg_sessions.specs.Accounts.{Accounts};
ghost use Rattle.mg_sessions.specs.Coming.{ComesTo, IsKept};
ghost use Rattle.mg_floor.specs.Answering.{refusal_told_by};
ghost use Rattle.mg_floor.specs.Trying.{TriesOnce, waits_so};

use crate::giving_up::give_up_one;
use mg_base::TxNo;
use mg_courses::{Stepped, Tends, step_on};
use mg_interleavings::Answered;
use mg_pending::Sessions;
use mg_script::Reply;
use std::alloc::Global;

/// The statement at a place takes one step, what it visited by it is collected, and it is kept where it goes on later.
pub(crate) fn step_at<R: Tends>(
    r: &mut R,
    alloc: Global,
    sessions: &mut Sessions<R::Run>,
    place: usize,
) -> Reply
where
    R::Run: Drop,
    requires ready { AreReady R.meaning R.runs r.old sessions.old.transactions sessions.old.pending.items }
    requires inside { place < length sessions.old.pending.items }
    ensures does { (o : Opening) (h : Entries) (us : List Unfinished) (d : PendingOf R.Run)
        → StandAt R.meaning R.runs r.old o h sessions.old.transactions sessions.old.pending.items us
        → (s : SplitAt R.runs r.old o h sessions.old.pending.items place d us)
        → ComesTo R.meaning R.runs r.old r.new o h sessions.new.transactions sessions.new.pending.items
        (IsKept s.one.session s.one.transaction (s.before ++ s.behind)
        (Steps o h s.one.transaction s.one.course) result) }
    ensures ready { AreReady R.meaning R.runs r.new sessions.new.transactions sessions.new.pending.items }
    ensures accounts { Accounts R.meaning r.old r.new (refusal_answered result) }
{
    let going = sessions.take_out(place);
    let mut work = going.work;
    let stepped = step_on(r, alloc, going.transaction, &mut work);
    sessions.keep(going.session, going.transaction, work, stepped)
}

/// The statement at a place, which waits for a transaction that is live still, is tried once more. Where it comes to
/// wait for that again, it has waited too long, and is given up.
pub(crate) fn try_once<R: Tends>(
    r: &mut R,
    alloc: Global,
    sessions: &mut Sessions<R::Run>,
    place: usize,
    on: TxNo,
) -> Answered
where
    R::Run: Drop,
    requires ready { AreReady R.meaning R.runs r.old sessions.old.transactions sessions.old.pending.items }
    requires inside { place < length sessions.old.pending.items }
    ensures does { (o : Opening) (h : Entries) (us : List Unfinished) (d : PendingOf R.Run)
        → StandAt R.meaning R.runs r.old o h sessions.old.transactions sessions.old.pending.items us
        → (s : SplitAt R.runs r.old o h sessions.old.pending.items place d us)
        → ComesTo R.meaning R.runs r.old r.new o h sessions.new.transactions sessions.new.pending.items
        (TriesOnce o h s.one (s.before ++ s.behind) on result) }
    ensures ready { AreReady R.meaning R.runs r.new sessions.new.transactions sessions.new.pending.items }
    ensures accounts { Accounts R.meaning r.old r.new (refusal_told_by result) }
{
    let trying = sessions.take_out(place);
    let mut work = trying.work;
    let stepped = step_on(r, alloc, trying.transaction, &mut work);
    if waits_for(&stepped, on) {
        return give_up_one(r, sessions, trying.session, trying.transaction, on);
    }
    Answered::Replied(sessions.keep(trying.session, trying.transaction, work, stepped))
}

// Whether a step came to wait for this transaction.
fn waits_for(stepped: &Stepped, on: TxNo) -> bool
    ensures { result ≡ waits_so on stepped.now }
{
    match stepped {
        Stepped::Waits(by) => by.0 == on.0,
        _ => false,
    }
}
