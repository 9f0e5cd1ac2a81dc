//! What is noted where a transaction is taken back.

ghost use Rattle.std.specs.Prelude.{◌≡◌};
ghost use Rattle.mg_model.specs.declared.event.Event.TheVariants as events;
ghost use Rattle.mg_recording.specs.Backs.{NotesEnd, NotesGoneBack, NotesRefused, NotesUndone, must_end as must_end_of};

use crate::active::Active;
use mg_base::TxNo;
use mg_model::{Answer, Refusal};
use mg_records::gives_up;
use mg_trace::Trace;
use mg_value::Name;

/// Notes a taking back to the last mark.
pub(crate) fn note_undone(
    trace: &mut Trace,
    active: &mut Active,
    t: TxNo,
    done: &Result<(), Refusal>,
)
    ensures { NotesUndone trace.old trace.new active.old active.new t done.now }
{
    match done {
        Ok(()) => trace.note_undo_mark(t, &Answer::Fine),
        Err(refusal) => note_undo_refused(trace, active, t, *refusal),
    }
}

/// Notes a taking back to a savepoint, if there was one.
pub(crate) fn note_gone_back(
    trace: &mut Trace,
    active: &mut Active,
    t: TxNo,
    name: &Name,
    done: &Result<bool, Refusal>,
)
    ensures { NotesGoneBack trace.old trace.new active.old active.new t name.now done.now }
{
    match done {
        Ok(true) => trace.note_back_to(t, name, &Answer::Fine),
        Ok(false) => (),
        Err(refusal) => note_back_refused(trace, active, t, name, *refusal),
    }
}

// Notes a taking back to the last mark that was refused.
fn note_undo_refused(trace: &mut Trace, active: &mut Active, t: TxNo, refusal: Refusal)
    ensures { NotesRefused trace.old trace.new active.old active.new t (events.UndoMark t) refusal }
{
    trace.note_undo_mark(t, &Answer::No(refusal));
    note_end(trace, active, t, refusal);
}

// Notes a taking back to a savepoint that was refused.
fn note_back_refused(trace: &mut Trace, active: &mut Active, t: TxNo, name: &Name, refusal: Refusal)
    ensures { NotesRefused trace.old trace.new active.old active.new t (events.BackTo t name.now) refusal }
{
    trace.note_back_to(t, name, &Answer::No(refusal));
    note_end(trace, active, t, refusal);
}

// Notes that a transaction was rolled back, if it was active and this refusal gives it up.
fn note_end(trace: &mut Trace, active: &mut Active, t: TxNo, refusal: Refusal)
    ensures { NotesEnd trace.old trace.new active.old active.new t (must_end_of active.old t refusal) }
{
    if must_end(active, t, refusal) {
        trace.note_rollback(t, &Answer::Fine);
        active.remove(t);
    }
}

// Tells whether a transaction is active that is rolled back after this refusal.
fn must_end(active: &Active, t: TxNo, refusal: Refusal) -> bool
    ensures { result ≡ must_end_of active.now t refusal }
{
    gives_up(refusal) && active.has(t)
}
