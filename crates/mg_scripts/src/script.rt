//! A whole script.

ghost use Rattle.std.specs.Prelude.{◌≡◌, ◌≤◌, ◌+◌, ◌&&◌, ℕ, All, List, None, [], true, false, vec_len, vec_capacity};
ghost use Rattle.mg_model.specs.declared.opening.Opening.{Opening};
ghost use Rattle.mg_model.specs.Answers.{is_active};
ghost use Rattle.mg_model.specs.History.{Entries};
ghost use Rattle.mg_model.specs.Machine.{state_of};
ghost use Rattle.mg_pending.specs.declared.transactions.TheConstants.{PLACES};
ghost use Rattle.mg_pending.specs.Standing.{AreReady, StandAt};
ghost use Rattle.mg_pending.specs.Transactions.{no_transactions};
ghost use Rattle.mg_sessions.specs.Accounts.{Accounts};
ghost use Rattle.mg_transcript.specs.Sessions.{Unfinished};
ghost use Rattle.mg_script_ends.specs.Ends.{AreCaused, told_of};
ghost use Rattle.mg_scripts.specs.Ending.{EndsLive, ScriptDone, is_cut as is_cut_of, is_none, reason_at};
ghost use Rattle.mg_scripts.specs.Printing.{SinkSays};
ghost use Rattle.mg_scripts.specs.ReadableLaws.{ScriptsCanBeObeyed};
ghost use Rattle.mg_scripts.specs.Runs.{CanBeObeyed};

use crate::lines::{LinesEnd, Ran, run_lines};
use mg_base::Sink;
use mg_courses::Statements;
use mg_model::Refusal;
use mg_pending::{Pending, Sessions};
use mg_script::Line;
use mg_script_ends::roll_back_all;
use mg_shorthand::Serves;
use std::alloc::Global;

/// The lines of a script that was read can be obeyed.
pub fn lines_of_scripts_can_be_obeyed()
    ensures { ScriptsCanBeObeyed }
{}

/// Obeys a script from its first line on, when no session has a transaction, and at its end rolls back what is live.
/// `fine` of the answer tells then whether all was answered Ok, and no statement was held or waited at the end.
/// `refusals` gets what was refused at the end; it is not printed.
///
/// `refusals` is empty, and has room for one of each session.
pub fn run_script<R: Serves, K: Sink>(
    r: &mut R,
    alloc: Global,
    size: u32,
    lines: &[Line],
    sink: &mut K,
    refusals: &mut Vec<Refusal>,
) -> Ran
where
    R::Run: Drop,
    requires size { R.meaning.is_size r.old size ≡ true }
    requires free { (session : ℕ) → R.meaning.is_free r.old session }
    requires obeyable { All CanBeObeyed lines.now }
    requires none { refusals.old.items ≡ [] }
    requires room { vec_len refusals.old + PLACES ≤ vec_capacity refusals.old }
    ensures done { (o : Opening) → R.meaning.stands r.old o []
        → ((t : ℕ) → is_active (state_of o [] t) ≡ false)
        → ScriptDone R.meaning K.meaning r.old r.new sink.old sink.new o size lines.now refusals.new.items
        result.end result.fine }
    ensures accounts { Accounts R.meaning r.old r.new (reason_at result.end refusals.new.items) }
    ensures caused { AreCaused R.meaning r.old r.new refusals.new.items }
    ensures sinks { SinkSays K.meaning sink.old sink.new result.end }
{
    match Sessions::new(alloc) {
        Ok(sessions) => run_from(r, alloc, sessions, size, lines, sink, refusals),
        Err(_) => Ran {
            end: LinesEnd::NoMemory,
            fine: true,
        },
    }
}

// The same, with the sessions that have no transaction yet.
fn run_from<R: Serves, K: Sink>(
    r: &mut R,
    alloc: Global,
    sessions: Sessions<R::Run>,
    size: u32,
    lines: &[Line],
    sink: &mut K,
    refusals: &mut Vec<Refusal>,
) -> Ran
where
    R::Run: Drop,
    requires transactions { sessions.transactions ≡ no_transactions }
    requires pending { sessions.pending.items ≡ [] }
    requires size { R.meaning.is_size r.old size ≡ true }
    requires free { (session : ℕ) → R.meaning.is_free r.old session }
    requires obeyable { All CanBeObeyed lines.now }
    requires none { refusals.old.items ≡ [] }
    requires room { vec_len refusals.old + PLACES ≤ vec_capacity refusals.old }
    ensures done { (o : Opening) → R.meaning.stands r.old o []
        → ((t : ℕ) → is_active (state_of o [] t) ≡ false)
        → ScriptDone R.meaning K.meaning r.old r.new sink.old sink.new o size lines.now refusals.new.items
        result.end result.fine }
    ensures accounts { Accounts R.meaning r.old r.new (reason_at result.end refusals.new.items) }
    ensures caused { AreCaused R.meaning r.old r.new refusals.new.items }
    ensures sinks { SinkSays K.meaning sink.old sink.new result.end }
{
    let mut sessions = sessions;
    let ran = run_lines(r, alloc, &mut sessions, size, lines, sink);
    if is_cut(ran.end) {
        return ran;
    }
    let fine = end_script(r, sessions, ran.fine, refusals);
    Ran {
        end: LinesEnd::Whole,
        fine,
    }
}

// Whether the run was cut short.
fn is_cut(end: LinesEnd) -> bool
    ensures { result ≡ is_cut_of end }
{
    match end {
        LinesEnd::Whole => false,
        LinesEnd::Stopped(_) | LinesEnd::NoMemory | LinesEnd::SinkFailed => true,
    }
}

// Rolls back what is live, and tells whether all was answered Ok and no statement is held or waits.
fn end_script<R: Statements>(
    r: &mut R,
    sessions: Sessions<R::Run>,
    fine: bool,
    refusals: &mut Vec<Refusal>,
) -> bool
where
    R::Run: Drop,
    requires ready { AreReady R.meaning R.runs r.old sessions.transactions sessions.pending.items }
    requires none { refusals.old.items ≡ [] }
    requires room { vec_len refusals.old + PLACES ≤ vec_capacity refusals.old }
    ensures ends { (o : Opening) (h : Entries) (us : List Unfinished)
        → StandAt R.meaning R.runs r.old o h sessions.transactions sessions.pending.items us
        → EndsLive R.meaning r.old r.new o h us fine refusals.new.items result }
    ensures accounts { Accounts R.meaning r.old r.new (told_of refusals.new.items) }
    ensures caused { AreCaused R.meaning r.old r.new refusals.new.items }
{
    let Sessions {
        mut transactions,
        pending,
    } = sessions;
    let none = none_is_left(&pending);
    roll_back_all(r, &mut transactions, refusals);
    both(fine, none)
}

// Whether no statement is held or waits.
fn none_is_left<P>(pending: &Vec<Pending<P>>) -> bool
    ensures { result ≡ is_none pending.now.items }
{
    pending.is_empty()
}

fn both(a: bool, b: bool) -> bool
    ensures { result ≡ (a && b) }
{
    a && b
}
