//! Several steps of a statement.

ghost use Rattle.std.specs.Prelude.{◌≡◌, ◌<◌, ◌&&◌, nat_lt, not, true, None};
ghost use Rattle.mg_base.specs.declared.transaction.TxState.TheVariants.{Active};
ghost use Rattle.mg_model.specs.declared.opening.Opening.{Opening};
ghost use Rattle.mg_model.specs.History.{Entries};
ghost use Rattle.mg_model.specs.Machine.{state_of};
ghost use Rattle.mg_records.specs.Sessions.{SessionsStay};
ghost use Rattle.mg_calls.specs.Frames.{Frames};
ghost use Rattle.mg_transcript.specs.Courses.{Course, Later};
ghost use Rattle.mg_transcript.specs.Steps.{Runs, Takes};
ghost use Rattle.mg_courses.specs.Running.{refusal_told, over_in, rests};
ghost use Rattle.mg_courses.specs.Working.{IsWorkReady, IsWorkReadyIf, IsWorkAt, WorkDone};

use crate::aside::step_on;
use crate::statements::Stepped;
use crate::tending::Tends;
use crate::work::Work;
use mg_base::TxNo;
use std::alloc::Global;

/// Makes steps of a statement until it waits or is at its end.
pub fn run<R: Tends>(r: &mut R, alloc: Global, t: TxNo, work: &mut Work<R::Run>) -> Stepped
where
    R::Run: Drop,
    requires ready { IsWorkReady R.meaning R.runs r.old t work.old }
    ensures runs { (o : Opening) (h : Entries) (course : Course) → R.meaning.stands r.old o h
        → state_of o h t.0 ≡ Active → IsWorkAt R.runs r.old o h t work.old course
        → WorkDone R.meaning R.runs r.old r.new o h t work.new result (Runs o t h (Later course)) }
    ensures rests { rests result ≡ true }
    ensures ready { IsWorkReadyIf R.meaning R.runs r.new t work.new result }
    ensures frames { Frames R.meaning r.old r.new t.0 (refusal_told result) }
    ensures sessions { SessionsStay R.meaning r.old r.new None (over_in t.0 result) }
{
    let mut stepped = step_on(r, alloc, t, work);
    while stepped.is_more() {
        stepped = step_on(r, alloc, t, work);
    }
    stepped
}

// Tells whether steps are left to be made, and the statement goes on by them.
fn is_left(left: u32, stepped: &Stepped) -> bool
    ensures { result ≡ (nat_lt 0 left && not (rests stepped.now)) }
{
    left > 0 && stepped.is_more()
}

/// Makes so many steps of a statement, fewer where it waits or is at its end before.
pub fn take<R: Tends>(
    r: &mut R,
    alloc: Global,
    t: TxNo,
    work: &mut Work<R::Run>,
    most: u32,
) -> Stepped
where
    R::Run: Drop,
    requires ready { IsWorkReady R.meaning R.runs r.old t work.old }
    requires some { 0 < most }
    ensures takes { (o : Opening) (h : Entries) (course : Course) → R.meaning.stands r.old o h
        → state_of o h t.0 ≡ Active → IsWorkAt R.runs r.old o h t work.old course
        → WorkDone R.meaning R.runs r.old r.new o h t work.new result (Takes o t most h (Later course)) }
    ensures ready { IsWorkReadyIf R.meaning R.runs r.new t work.new result }
    ensures frames { Frames R.meaning r.old r.new t.0 (refusal_told result) }
    ensures sessions { SessionsStay R.meaning r.old r.new None (over_in t.0 result) }
{
    let mut stepped = step_on(r, alloc, t, work);
    let mut left = most - 1;
    while is_left(left, &stepped) {
        stepped = step_on(r, alloc, t, work);
        left -= 1;
    }
    stepped
}
