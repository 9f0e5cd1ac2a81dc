//! The writes of a statement, one a step.

ghost use Rattle.std.specs.Prelude.{◌≡◌};
ghost use Rattle.mg_model.specs.declared.opening.Opening.{Opening};
ghost use Rattle.mg_model.specs.History.{Entries};
ghost use Rattle.mg_calls.specs.Steps.{AreReady, WritesNext, MarksAndWrites, StepsOn, ended_at};
ghost use Rattle.mg_calls.specs.Quiet.{AreQuiet};

use crate::writing::{Written, write_or_undo};
use mg_base::TxNo;
use mg_model::{Refusal, Table};
use mg_records::{Records, Write};
use std::collections::VecDeque;

/// Writes to a table that are still to be made, the next one first.
#[derive(Debug, Drop)]
pub struct Writes {
    pub table: Table,
    pub left: VecDeque<Write>,
}

/// What became of a step that makes a write.
#[derive(Clone, Copy, Debug, PartialEq, Eq)]
pub enum Wrote {
    /// One write was made, and more are left.
    More,
    /// All writes are made.
    Done,
    /// The next write waits for this transaction, and can be tried again.
    Waits(TxNo),
    /// It was refused, and the statement undone. Where the undoing was refused too, the refusal is
    /// the worse of the two, and nothing was undone.
    Refused(Refusal),
    /// It was refused, and so was the undoing: the transaction is rolled back. The refusal is the worse
    /// of the two.
    RolledBack(Refusal),
}

/// Makes the next write of a statement that has set its mark.
pub fn write_next<R: Records>(r: &mut R, t: TxNo, w: &mut Writes) -> Wrote
    requires ready { AreReady R.meaning r.old t.0 w.old }
    ensures writes { (o : Opening) (h : Entries) → R.meaning.stands r.old o h
        → WritesNext R.meaning r.new o h t w.old.table.name w.old.left.items w.new.left.items result }
    ensures steps { StepsOn R.meaning r.old r.new t.0 w.old w.new result }
    ensures quiet { AreQuiet R.meaning r.old r.new (ended_at t.0 result) }
{
    let Some(first) = w.left.front() else {
        return Wrote::Done;
    };
    match write_or_undo(r, t, &w.table, first) {
        Written::Done => {}
        Written::Waits(on) => return Wrote::Waits(on),
        Written::Refused(refusal) => return Wrote::Refused(refusal),
        Written::RolledBack(refusal) => return Wrote::RolledBack(refusal),
    }
    w.left.pop_front();
    if w.left.is_empty() {
        Wrote::Done
    } else {
        Wrote::More
    }
}

/// Sets the mark of a statement, and makes the first of its writes. Where the mark is refused there
/// is nothing to undo.
pub fn mark_and_write<R: Records>(r: &mut R, t: TxNo, w: &mut Writes) -> Wrote
    requires ready { AreReady R.meaning r.old t.0 w.old }
    ensures writes { (o : Opening) (h : Entries) → R.meaning.stands r.old o h
        → MarksAndWrites R.meaning r.new o h t w.old.table.name w.old.left.items w.new.left.items result }
    ensures steps { StepsOn R.meaning r.old r.new t.0 w.old w.new result }
    ensures quiet { AreQuiet R.meaning r.old r.new (ended_at t.0 result) }
{
    match r.mark(t) {
        Ok(()) => write_next(r, t, w),
        Err(refusal) => Wrote::Refused(refusal),
    }
}
