//! A write of a statement that has set its mark.

ghost use Rattle.std.specs.Prelude.{◌≡◌, MatchOption, Some, false};
ghost use Rattle.mg_model.specs.declared.opening.Opening.{Opening};
ghost use Rattle.mg_model.specs.History.{Entries};
ghost use Rattle.mg_records.specs.Writing.{FitsShape, event_of};
ghost use Rattle.mg_calls.specs.Frames.{Frames};
ghost use Rattle.mg_calls.specs.Undoing.{Undoes, is_waiting};
ghost use Rattle.mg_calls.specs.Writes.{WritesOne, IsWritten, ended_by, goes_on, refusal_written, refused_twice};
ghost use Rattle.mg_calls.specs.Quiet.{AreQuiet};

use mg_base::TxNo;
use mg_faults::worse;
use mg_model::{Refusal, Table};
use mg_records::{Records, Write, gives_up};

/// What became of a write.
#[derive(Clone, Copy, Debug, PartialEq, Eq)]
pub enum Written {
    /// It took effect.
    Done,
    /// It waits for this transaction, and can be tried again.
    Waits(TxNo),
    /// It was refused and its statement undone, all since its mark. Where the undoing was refused
    /// too, the refusal is the worse of the two, and nothing was undone.
    Refused(Refusal),
    /// It was refused, and so was the undoing of its statement: the transaction is rolled back. The
    /// refusal is the worse of the two.
    RolledBack(Refusal),
}

/// Writes a row for a statement that has set its mark. Where the write is refused, and doesn't wait,
/// the statement is undone, or the transaction rolled back.
pub fn write_or_undo<R: Records>(r: &mut R, t: TxNo, table: &Table, write: &Write) -> Written
    requires table { R.meaning.table r.old t.0 table.now.name ≡ Some table.now }
    requires fits { FitsShape table.now.shape write.now }
    ensures writes { (o : Opening) (h : Entries) → R.meaning.stands r.old o h
        → WritesOne R.meaning r.new o h t (event_of t table.now.name write.now) result }
    ensures leaves { IsWritten R.meaning r.old r.new t.0 result }
    ensures quiet { AreQuiet R.meaning r.old r.new (ended_by t.0 result) }
{
    match r.write_step(t, table, write) {
        Ok(()) => Written::Done,
        Err(refusal) => match waits_on(refusal) {
            Some(on) => Written::Waits(on),
            None => undo(r, t, refusal),
        },
    }
}

/// The transaction that a refused call waits for, None where it doesn't wait.
pub(crate) fn waits_on(refusal: Refusal) -> Option<TxNo>
    ensures { MatchOption result (is_waiting refusal ≡ false) (λ on. refusal ≡ Refusal.Waits on) }
{
    match refusal {
        Refusal::Waits { on } => Some(on),
        _ => None,
    }
}

/// Undoes a statement that was refused so.
pub(crate) fn undo<R: Records>(r: &mut R, t: TxNo, refusal: Refusal) -> Written
    ensures undoes { (o : Opening) (h : Entries) → R.meaning.stands r.old o h
        → Undoes R.meaning r.new o h t refusal result }
    ensures ends { goes_on result ≡ false }
    ensures frames { (before : R) → Frames R.meaning before r.old t.0 (Some refusal)
        → Frames R.meaning before r.new t.0 (refusal_written result) }
    ensures quiet { AreQuiet R.meaning r.old r.new (ended_by t.0 result) }
{
    match r.undo_mark(t) {
        Ok(()) => Written::Refused(refusal),
        Err(later) => not_undone(refusal, later),
    }
}

/// What became of a statement that was refused first, and whose undoing was refused later.
fn not_undone(first: Refusal, later: Refusal) -> Written
    ensures { result ≡ refused_twice first later }
{
    let answered = worse(first, later);
    if gives_up(later) {
        Written::RolledBack(answered)
    } else {
        Written::Refused(answered)
    }
}
