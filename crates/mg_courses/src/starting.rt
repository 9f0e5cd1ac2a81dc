//! The beginning of a statement.

ghost use Rattle.std.specs.Prelude.{◌≡◌, ℕ, true, false, None};
ghost use Rattle.mg_base.specs.declared.transaction.TxState.TheVariants.{Active};
ghost use Rattle.mg_model.specs.declared.opening.Opening.{Opening};
ghost use Rattle.mg_model.specs.History.{Entries};
ghost use Rattle.mg_model.specs.Machine.{state_of, mode_of};
ghost use Rattle.mg_records.specs.Sessions.{SessionsStay};
ghost use Rattle.mg_sql.specs.Lengths.{HasLengths};
ghost use Rattle.mg_statements.specs.Plain.{plain_of, Commit, Rollback};
ghost use Rattle.mg_calls.specs.Frames.{Frames};
ghost use Rattle.mg_transcript.specs.Lines.{begins};
ghost use Rattle.mg_transcript.specs.Statements.{looks};
ghost use Rattle.mg_transcript.specs.Steps.{Starts};
ghost use Rattle.mg_courses.specs.Running.{runs_in_steps};
ghost use Rattle.mg_courses.specs.Working.{StartDone, BeginDone, IsStartReady, over_at_start, refusal_at_start};

use crate::statements::{Ending, Statements};
use crate::work::{Work, over, refused};
use mg_base::TxNo;
use mg_script::Reply;
use mg_statements::{Statement, let_go};
use std::alloc::Global;

/// What the beginning of a statement came to.
#[derive(Drop)]
pub enum Started<P> {
    /// It goes on by its steps.
    Begun(Work<P>),
    /// It is at its end.
    Ended(Ending),
}

/// Begins a statement of a transaction: one of a table looks, and is tested; a COMMIT asks for its
/// pages to be noted; a ROLLBACK is at its end at once.
pub fn start<R: Statements>(
    r: &mut R,
    alloc: Global,
    t: TxNo,
    read_only: bool,
    s: Statement,
    size: u32,
) -> Started<R::Run>
where
    R::Run: Drop,
    requires other { begins (plain_of s) ≡ false }
    requires lengths { HasLengths (plain_of s) }
    requires size { R.meaning.is_size r.old size ≡ true }
    ensures starts { (o : Opening) (h : Entries) → R.meaning.stands r.old o h
        → state_of o h t.0 ≡ Active → (mode_of h t.0).read_only ≡ read_only
        → StartDone R.meaning R.runs r.old r.new o h t result (Starts o h t size (plain_of s)) }
    ensures ready { IsStartReady R.meaning R.runs r.new t result }
    ensures frames { Frames R.meaning r.old r.new t.0 (refusal_at_start result) }
    ensures sessions { SessionsStay R.meaning r.old r.new None (over_at_start t.0 result) }
{
    match s {
        Statement::Commit => ask(r, t),
        Statement::Rollback => roll_back(r, t),
        Statement::Savepoint { .. } => begin(r, alloc, t, read_only, s, size),
        Statement::RollbackTo { .. } => begin(r, alloc, t, read_only, s, size),
        _ => look_and_begin(r, alloc, t, read_only, s, size),
    }
}

// Asks for a COMMIT.
fn ask<R: Statements>(r: &mut R, t: TxNo) -> Started<R::Run>
where
    R::Run: Drop,
    ensures starts { (o : Opening) (h : Entries) → R.meaning.stands r.old o h
        → state_of o h t.0 ≡ Active
        → (size : ℕ) → StartDone R.meaning R.runs r.old r.new o h t result (Starts o h t size Commit) }
    ensures ready { IsStartReady R.meaning R.runs r.new t result }
    ensures frames { Frames R.meaning r.old r.new t.0 (refusal_at_start result) }
    ensures sessions { SessionsStay R.meaning r.old r.new None (over_at_start t.0 result) }
{
    match r.commit_ask(t) {
        Ok(()) => Started::Begun(Work::Commit { written: false }),
        Err(refusal) => Started::Ended(refused(refusal)),
    }
}

// Rolls a transaction back.
fn roll_back<R: Statements>(r: &mut R, t: TxNo) -> Started<R::Run>
where
    R::Run: Drop,
    ensures starts { (o : Opening) (h : Entries) → R.meaning.stands r.old o h
        → state_of o h t.0 ≡ Active
        → (size : ℕ) → StartDone R.meaning R.runs r.old r.new o h t result (Starts o h t size Rollback) }
    ensures ready { IsStartReady R.meaning R.runs r.new t result }
    ensures frames { Frames R.meaning r.old r.new t.0 (refusal_at_start result) }
    ensures sessions { SessionsStay R.meaning r.old r.new None (over_at_start t.0 result) }
{
    match r.rollback(t) {
        Ok(()) => Started::Ended(over()),
        Err(refusal) => Started::Ended(refused(refusal)),
    }
}

// Begins a statement that runs in steps, and has looked if it is one that looks.
fn begin<R: Statements>(
    r: &mut R,
    alloc: Global,
    t: TxNo,
    read_only: bool,
    s: Statement,
    size: u32,
) -> Started<R::Run>
where
    R::Run: Drop,
    requires steps { runs_in_steps (plain_of s) ≡ true }
    requires lengths { HasLengths (plain_of s) }
    requires size { R.meaning.is_size r.old size ≡ true }
    ensures begins { (o : Opening) (h : Entries) → R.meaning.stands r.old o h
        → state_of o h t.0 ≡ Active
        → BeginDone R.meaning R.runs r.old r.new o h t read_only size (plain_of s) result }
    ensures ready { IsStartReady R.meaning R.runs r.new t result }
    ensures frames { Frames R.meaning r.old r.new t.0 (refusal_at_start result) }
    ensures sessions { SessionsStay R.meaning r.old r.new None (over_at_start t.0 result) }
{
    match r.test(alloc, t, read_only, s, size) {
        Ok(run) => Started::Begun(Work::Statement(run)),
        Err(fault) => Started::Ended(Ending {
            reply: Reply::No(fault),
            over: false,
        }),
    }
}

// Looks, and begins a statement that looks.
fn look_and_begin<R: Statements>(
    r: &mut R,
    alloc: Global,
    t: TxNo,
    read_only: bool,
    s: Statement,
    size: u32,
) -> Started<R::Run>
where
    R::Run: Drop,
    requires looks { looks (plain_of s) ≡ true }
    requires lengths { HasLengths (plain_of s) }
    requires size { R.meaning.is_size r.old size ≡ true }
    ensures starts { (o : Opening) (h : Entries) → R.meaning.stands r.old o h
        → state_of o h t.0 ≡ Active → (mode_of h t.0).read_only ≡ read_only
        → StartDone R.meaning R.runs r.old r.new o h t result (Starts o h t size (plain_of s)) }
    ensures ready { IsStartReady R.meaning R.runs r.new t result }
    ensures frames { Frames R.meaning r.old r.new t.0 (refusal_at_start result) }
    ensures sessions { SessionsStay R.meaning r.old r.new None (over_at_start t.0 result) }
{
    match r.look(t) {
        Ok(()) => begin(r, alloc, t, read_only, s, size),
        Err(refusal) => {
            let_go(s);
            Started::Ended(refused(refusal))
        }
    }
}
