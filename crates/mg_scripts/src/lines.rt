//! The lines of a script.

ghost use Rattle.std.specs.Prelude.{◌≡◌, ◌&&◌, All, List, [], true};
ghost use Rattle.std.specs.List.{list_all};
ghost use Rattle.mg_model.specs.declared.opening.Opening.{Opening};
ghost use Rattle.mg_model.specs.History.{Entries};
ghost use Rattle.mg_transcript.specs.Lines.{last_reply};
ghost use Rattle.mg_transcript.specs.Sessions.{Unfinished};
ghost use Rattle.mg_transcript.specs.Transcript.{fine, flow};
ghost use Rattle.mg_pending.specs.Standing.{AreReady, StandAt};
ghost use Rattle.mg_sessions.specs.Accounts.{Accounts};
ghost use Rattle.mg_sessions.specs.Lines.{IsObeyable};
ghost use Rattle.mg_scripts.specs.Printing.{LineSays, SinkSays};
ghost use Rattle.mg_scripts.specs.Runs.{CanBeObeyed, LinesDone, is_known as is_known_of, read_as};
ghost use Rattle.mg_scripts.specs.Steps.{LineDone, are_fine as are_fine_of, end_of_turn, end_or, reason, reason_in, stop_by};

use crate::printing::print_turn;
use mg_base::Sink;
use mg_model::Refusal;
use mg_pending::Sessions;
use mg_script::{Line, LineKind, Reply};
use mg_shorthand::Serves;
use mg_transcript::{Flow, Spoken, Turn, flow_of, is_fine};
use mg_turns::{Taken, TurnEnd, take_turn};
use std::alloc::Global;

/// How the lines of a script came to their end.
#[derive(Clone, Copy, Debug, PartialEq, Eq)]
pub enum LinesEnd {
    /// Every line was obeyed to its end.
    Whole,
    /// The run stops by this refusal, which was answered last, and printed.
    Stopped(Refusal),
    /// There was no memory for an answer, or for what is printed of a line. No line tells of it.
    NoMemory,
    /// The sink failed.
    SinkFailed,
}

/// The lines of a script were obeyed so far.
#[derive(Clone, Copy, Debug, PartialEq, Eq)]
pub struct Ran {
    pub end: LinesEnd,
    /// Each answer was Ok; statements that are held or wait still are not counted.
    pub fine: bool,
}

/// Obeys the lines of a script one after another, and puts what each prints into the sink before the next one is
/// obeyed. Behind an answer by which the run stops no line is obeyed.
pub fn run_lines<R: Serves, K: Sink>(
    r: &mut R,
    alloc: Global,
    sessions: &mut Sessions<R::Run>,
    size: u32,
    lines: &[Line],
    sink: &mut K,
) -> Ran
where
    R::Run: Drop,
    requires ready { AreReady R.meaning R.runs r.old sessions.old.transactions sessions.old.pending.items }
    requires size { R.meaning.is_size r.old size ≡ true }
    requires obeyable { All CanBeObeyed lines.now }
    ensures done { (o : Opening)
        → StandAt R.meaning R.runs r.old o [] sessions.old.transactions sessions.old.pending.items []
        → LinesDone R.meaning R.runs K.meaning r.old r.new sink.old sink.new o size lines.now
        sessions.new.transactions sessions.new.pending.items result.end result.fine }
    ensures ready { AreReady R.meaning R.runs r.new sessions.new.transactions sessions.new.pending.items }
    ensures accounts { Accounts R.meaning r.old r.new (reason result.end) }
    ensures sinks { SinkSays K.meaning sink.old sink.new result.end }
{
    let mut fine = true;
    let mut rest = lines;
    while let Some((line, later)) = rest.split_first() {
        let said = obey_line(r, alloc, sessions, size, line, sink);
        fine = both(fine, said.fine);
        if let Some(end) = said.end {
            return Ran { end, fine };
        }
        rest = later;
    }
    Ran {
        end: LinesEnd::Whole,
        fine,
    }
}

// Whether both hold.
fn both(first: bool, second: bool) -> bool
    ensures { result ≡ (first && second) }
{
    first && second
}

/// A line was obeyed and printed.
#[derive(Clone, Copy, Debug, PartialEq, Eq)]
struct Said {
    /// How the run ends by it, if it does.
    end: Option<LinesEnd>,
    /// Each answer at it was Ok.
    fine: bool,
}

// Obeys a line, as it is read, and prints what it came to.
fn obey_line<R: Serves, K: Sink>(
    r: &mut R,
    alloc: Global,
    sessions: &mut Sessions<R::Run>,
    size: u32,
    line: &Line,
    sink: &mut K,
) -> Said
where
    R::Run: Drop,
    requires ready { AreReady R.meaning R.runs r.old sessions.old.transactions sessions.old.pending.items }
    requires size { R.meaning.is_size r.old size ≡ true }
    requires obeyable { CanBeObeyed line.now }
    ensures done { (o : Opening) (h : Entries) (us : List Unfinished)
        → StandAt R.meaning R.runs r.old o h sessions.old.transactions sessions.old.pending.items us
        → LineDone R.meaning R.runs K.meaning r.old r.new sink.old sink.new o size h us (read_as line.now)
        sessions.new.transactions sessions.new.pending.items result.end result.fine }
    ensures ready { AreReady R.meaning R.runs r.new sessions.new.transactions sessions.new.pending.items }
    ensures accounts { Accounts R.meaning r.old r.new (reason_in result.end) }
    ensures sinks { LineSays K.meaning sink.old sink.new result.end }
{
    if is_known(&line.kind) {
        return take_line(r, alloc, sessions, size, line, sink);
    }
    let bad = Line {
        number: line.number,
        kind: LineKind::Bad,
    };
    take_line(r, alloc, sessions, size, &bad, sink)
}

// Whether lines of this form are obeyed.
fn is_known(kind: &LineKind) -> bool
    ensures { result ≡ is_known_of kind.now }
{
    match kind {
        LineKind::Sweep { .. } | LineKind::Prepare { .. } => false,
        _ => true,
    }
}

// Takes the turn of a line, and prints what it came to.
fn take_line<R: Serves, K: Sink>(
    r: &mut R,
    alloc: Global,
    sessions: &mut Sessions<R::Run>,
    size: u32,
    line: &Line,
    sink: &mut K,
) -> Said
where
    R::Run: Drop,
    requires ready { AreReady R.meaning R.runs r.old sessions.old.transactions sessions.old.pending.items }
    requires size { R.meaning.is_size r.old size ≡ true }
    requires obeyable { IsObeyable line.now.kind }
    ensures done { (o : Opening) (h : Entries) (us : List Unfinished)
        → StandAt R.meaning R.runs r.old o h sessions.old.transactions sessions.old.pending.items us
        → LineDone R.meaning R.runs K.meaning r.old r.new sink.old sink.new o size h us line.now
        sessions.new.transactions sessions.new.pending.items result.end result.fine }
    ensures ready { AreReady R.meaning R.runs r.new sessions.new.transactions sessions.new.pending.items }
    ensures accounts { Accounts R.meaning r.old r.new (reason_in result.end) }
    ensures sinks { LineSays K.meaning sink.old sink.new result.end }
{
    let taken = take_turn(r, alloc, sessions, size, &line.kind);
    let failed = print_turn(alloc, line, &taken.turn, sink);
    Said {
        end: end_with(failed, &taken),
        fine: is_turn_fine(&taken.turn),
    }
}

// How the run ends, if it does: by the turn, or else by what came of its printing.
fn end_with(failed: Option<LinesEnd>, taken: &Taken) -> Option<LinesEnd>
    ensures { result ≡ end_or (end_of_turn taken.now.end
        (flow (last_reply taken.now.turn.reply taken.now.turn.released.items))) failed }
{
    match end_of(taken) {
        Some(end) => Some(end),
        None => failed,
    }
}

// How the run ends by the turn, if it does.
fn end_of(taken: &Taken) -> Option<LinesEnd>
    ensures { result ≡ end_of_turn taken.now.end
        (flow (last_reply taken.now.turn.reply taken.now.turn.released.items)) }
{
    match taken.end {
        TurnEnd::Whole | TurnEnd::InVain => None,
        TurnEnd::NoRoom => Some(LinesEnd::NoMemory),
        TurnEnd::Stopped => end_by(&taken.turn),
    }
}

// How the run ends by the answer that came last.
fn end_by(turn: &Turn) -> Option<LinesEnd>
    ensures { result ≡ stop_by (flow (last_reply turn.now.reply turn.now.released.items)) }
{
    match flow_of(last_of(turn)) {
        Flow::Stops(refusal) => Some(LinesEnd::Stopped(refusal)),
        Flow::GoesOn => None,
    }
}

// The answer that came last.
fn last_of(turn: &Turn) -> &Reply
    ensures { result.now ≡ last_reply turn.now.reply turn.now.released.items }
{
    let mut last = &turn.reply;
    let mut rest = turn.released.as_slice();
    while let Some((spoken, later)) = rest.split_first() {
        last = &spoken.reply;
        rest = later;
    }
    last
}

// Whether each answer is Ok.
fn is_turn_fine(turn: &Turn) -> bool
    ensures { result ≡ are_fine_of turn.now.reply turn.now.released.items }
{
    is_fine(&turn.reply) && are_fine(&turn.released)
}

// Whether each of these is answered Ok.
fn are_fine(released: &[Spoken]) -> bool
    ensures { result ≡ list_all (λ spoken. fine spoken.reply) released.now }
{
    let mut rest = released;
    while let Some((spoken, later)) = rest.split_first() {
        if !is_fine(&spoken.reply) {
            return false;
        }
        rest = later;
    }
    true
}
