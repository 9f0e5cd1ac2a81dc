//! The turn of a line.

ghost use Rattle.std.specs.Prelude.{◌≡◌, ◌≢◌, false, ◌<◌, ◌++◌, ◌∷◌, [], List, All, Option, None, Some, length, true, vec_len, vec_capacity};
ghost use Rattle.mg_model.specs.declared.opening.Opening.{Opening};
ghost use Rattle.mg_model.specs.History.{Entries};
ghost use Rattle.mg_transcript.specs.Lines.{last_reply};
ghost use Rattle.mg_transcript.specs.Sessions.{Unfinished};
ghost use Rattle.mg_transcript.specs.Transcript.{HasItsLetter};
ghost use Rattle.mg_courses.specs.Running.{refusal_answered};
ghost use Rattle.mg_pending.specs.declared.pending.Pending.{Pending as PendingOf};
ghost use Rattle.mg_pending.specs.Standing.{AreReady, StandAt};
ghost use Rattle.mg_pending.specs.Statements.{IsFirstAt, is_released};
ghost use Rattle.mg_sessions.specs.Accounts.{Accounts};
ghost use Rattle.mg_sessions.specs.Coming.{ComesTo};
ghost use Rattle.mg_sessions.specs.Lines.{IsObeyable};
ghost use Rattle.mg_turns.specs.Turns.{AccountsOn, LetsGo, StopsSo, Turned, end_behind as end_behind_of, turns_left};

use mg_courses::Tends;
use mg_pending::{Sessions, first_released, is_last_released};
use mg_script::LineKind;
use mg_sessions::{obey, resume};
use mg_shorthand::Serves;
use mg_transcript::{Flow, Spoken, Turn, flow_of};
use std::alloc::Global;

/// How the turn of a line came to its end.
#[derive(Clone, Copy, Debug, PartialEq, Eq)]
pub enum TurnEnd {
    /// All is done that comes at the line.
    Whole,
    /// The run stops by the answer that came last.
    Stopped,
    /// There was no memory for a further answer, so no further statement went on.
    NoRoom,
    /// A statement went on and waits for a transaction that isn't active. No history has that.
    InVain,
}

/// The turn of a line that was taken.
#[derive(Debug, Drop)]
pub struct Taken {
    pub turn: Turn,
    pub end: TurnEnd,
}

/// Takes the turn of a line: it is obeyed, and then each statement goes on whose waiting is over.
pub fn take_turn<R: Serves>(
    r: &mut R,
    alloc: Global,
    sessions: &mut Sessions<R::Run>,
    size: u32,
    kind: &LineKind,
) -> Taken
where
    R::Run: Drop,
    requires ready { AreReady R.meaning R.runs r.old sessions.old.transactions sessions.old.pending.items }
    requires size { R.meaning.is_size r.old size ≡ true }
    requires obeyable { IsObeyable kind.now }
    ensures does { (o : Opening) (h : Entries) (us : List Unfinished)
        → StandAt R.meaning R.runs r.old o h sessions.old.transactions sessions.old.pending.items us
        → ComesTo R.meaning R.runs r.old r.new o h sessions.new.transactions sessions.new.pending.items
        (Turned o h size us kind.now result.turn.reply result.turn.released.items (Some result.end)) }
    ensures ready { AreReady R.meaning R.runs r.new sessions.new.transactions sessions.new.pending.items }
    ensures accounts { Accounts R.meaning r.old r.new
        (refusal_answered (last_reply result.turn.reply result.turn.released.items)) }
    ensures stopped { StopsSo (last_reply result.turn.reply result.turn.released.items) (Some result.end) }
    ensures lettered { All HasItsLetter result.turn.released.items }
{
    let reply = obey(r, alloc, sessions, size, kind);
    match flow_of(&reply) {
        Flow::Stops(_) => Taken {
            turn: Turn {
                reply,
                released: Vec::new(alloc),
            },
            end: TurnEnd::Stopped,
        },
        Flow::GoesOn => {
            let mut released = Vec::new(alloc);
            let end = release_all(r, alloc, sessions, &mut released);
            Taken {
                turn: Turn { reply, released },
                end,
            }
        }
    }
}

// Lets statements go on whose waiting is over, one after another, until none is left.
fn release_all<R: Tends>(
    r: &mut R,
    alloc: Global,
    sessions: &mut Sessions<R::Run>,
    released: &mut Vec<Spoken>,
) -> TurnEnd
where
    R::Run: Drop,
    requires ready { AreReady R.meaning R.runs r.old sessions.old.transactions sessions.old.pending.items }
    ensures lets { LetsGo R.meaning R.runs r.old r.new sessions.old.transactions sessions.old.pending.items
        sessions.new.transactions sessions.new.pending.items released.old.items released.new.items (Some result) }
    ensures ready { AreReady R.meaning R.runs r.new sessions.new.transactions sessions.new.pending.items }
    ensures accounts { AccountsOn R.meaning r.old r.new released.old.items released.new.items (Some result) }
    ensures lettered { All HasItsLetter released.old.items → All HasItsLetter released.new.items }
{
    while let Some(place) = first_released(&sessions.pending, &sessions.transactions) {
        match release_one(r, alloc, sessions, released, place) {
            Some(end) => return end,
            None => {}
        }
    }
    TurnEnd::Whole
}

// Lets the statement at a place go on, where there is memory for what it is answered.
fn release_one<R: Tends>(
    r: &mut R,
    alloc: Global,
    sessions: &mut Sessions<R::Run>,
    released: &mut Vec<Spoken>,
    place: usize,
) -> Option<TurnEnd>
where
    R::Run: Drop,
    requires ready { AreReady R.meaning R.runs r.old sessions.old.transactions sessions.old.pending.items }
    requires first { IsFirstAt (is_released sessions.old.transactions) sessions.old.pending.items place }
    ensures lets { LetsGo R.meaning R.runs r.old r.new sessions.old.transactions sessions.old.pending.items
        sessions.new.transactions sessions.new.pending.items released.old.items released.new.items result }
    ensures nearer { result ≡ None → turns_left sessions.new.transactions sessions.new.pending.items
        < turns_left sessions.old.transactions sessions.old.pending.items }
    ensures ready { AreReady R.meaning R.runs r.new sessions.new.transactions sessions.new.pending.items }
    ensures accounts { AccountsOn R.meaning r.old r.new released.old.items released.new.items result }
    ensures lettered { All HasItsLetter released.old.items → All HasItsLetter released.new.items }
{
    match released.reserve(1) {
        Ok(()) => speak(r, alloc, sessions, released, place),
        Err(_) => Some(TurnEnd::NoRoom),
    }
}

// The statement at a place goes on, and what it is answered is kept.
fn speak<R: Tends>(
    r: &mut R,
    alloc: Global,
    sessions: &mut Sessions<R::Run>,
    released: &mut Vec<Spoken>,
    place: usize,
) -> Option<TurnEnd>
where
    R::Run: Drop,
    requires ready { AreReady R.meaning R.runs r.old sessions.old.transactions sessions.old.pending.items }
    requires first { IsFirstAt (is_released sessions.old.transactions) sessions.old.pending.items place }
    requires room { vec_len released.old < vec_capacity released.old }
    ensures lets { LetsGo R.meaning R.runs r.old r.new sessions.old.transactions sessions.old.pending.items
        sessions.new.transactions sessions.new.pending.items released.old.items released.new.items result }
    ensures nearer { result ≡ None → turns_left sessions.new.transactions sessions.new.pending.items
        < turns_left sessions.old.transactions sessions.old.pending.items }
    ensures ready { AreReady R.meaning R.runs r.new sessions.new.transactions sessions.new.pending.items }
    ensures accounts { AccountsOn R.meaning r.old r.new released.old.items released.new.items result }
    ensures lettered { All HasItsLetter released.old.items → All HasItsLetter released.new.items }
{
    let before = sessions.pending.len();
    let spoken = resume(r, alloc, sessions, place);
    let flow = flow_of(&spoken.reply);
    let vain = waits_in_vain(sessions, before);
    released.push_reserved(spoken);
    end_behind(flow, vain)
}

// Tells whether the statement that went on, where it waits again, waits for no live transaction. There were so many
// statements before.
fn waits_in_vain<P>(sessions: &Sessions<P>, before: usize) -> bool
    ensures again { (others : List (PendingOf P)) (again : PendingOf P)
        → sessions.now.pending.items ≡ others ++ again ∷ [] → length sessions.now.pending.items ≡ before
        → result ≡ is_released sessions.now.transactions again }
    ensures fewer { length sessions.now.pending.items ≢ before → result ≡ false }
{
    sessions.pending.len() == before && is_last_released(&sessions.pending, &sessions.transactions)
}

// What ends a turn behind an answer.
fn end_behind(flow: Flow, vain: bool) -> Option<TurnEnd>
    ensures { result ≡ end_behind_of flow vain }
{
    match flow {
        Flow::Stops(_) => Some(TurnEnd::Stopped),
        Flow::GoesOn => { if vain { Some(TurnEnd::InVain) } else { None } }
    }
}
