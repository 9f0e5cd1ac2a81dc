//! The numbers of the transactions that are active, as a keeper that records knows them.

ghost use Rattle.std.specs.Prelude.{◌≡◌, ◌++◌, ◌∷◌, [], OnOk};
ghost use Rattle.mg_recording.specs.Active.{is_among, without};
ghost use Rattle.mg_recording.specs.Knowing.{NotesBegun, after_end, with_drawn};
ghost use Rattle.mg_model.specs.declared.event.Event.TheVariants as events;

use crate::answers::number_answer;
use mg_base::{Memory, TxNo};
use mg_model::{Mode, Refusal};
use mg_trace::Trace;
use std::alloc::Global;
use std::marker::Model;

/// Numbers of transactions.
#[derive(Debug, Drop)]
pub struct Active {
    numbers: Vec<u32>,
}

impl Model for Active {
    ghost use Rattle.std.specs.Prelude.{List, ℕ};

    ghost Value = { List ℕ };

    ghost view = { λ active. active.numbers.items };
}

impl Active {
    /// No number. It takes no memory.
    pub(crate) fn new(alloc: Global) -> Active
        ensures { result ≡ [] }
    {
        Active {
            numbers: Vec::new(alloc),
        }
    }

    /// Tells whether a number is among them.
    pub(crate) fn has(&self, t: TxNo) -> bool
        ensures { result ≡ is_among t.0 self.now }
    {
        self.numbers.as_slice().contains(&t.0)
    }

    /// One number more.
    ///
    /// # Errors
    ///
    /// `Memory` only.
    pub(crate) fn add(&mut self, t: TxNo) -> Result<(), Memory>
        ensures { OnOk result (self.new ≡ self.old ++ (t.0 ∷ [])) }
    {
        self.numbers.push(t.0)?;
        Ok(())
    }

    /// All but one number.
    pub(crate) fn remove(&mut self, t: TxNo)
        ensures { self.new ≡ without t.0 self.old }
    {
        drop_number(&mut self.numbers, t);
    }
}

// Drops the number of a transaction.
fn drop_number(numbers: &mut Vec<u32>, t: TxNo)
    ensures { numbers.new.items ≡ without t.0 numbers.old.items }
{
    numbers.retain(|number| *number != t.0);
}

/// Notes that a session begins a transaction, or was refused to.
pub(crate) fn note_begun(
    trace: &mut Trace,
    active: &mut Active,
    session: u8,
    mode: Mode,
    drawn: &Result<TxNo, Refusal>,
)
    ensures { NotesBegun trace.old trace.new active.old active.new (events.Begin session mode) drawn.now }
{
    // The number comes first: where memory for it is short the line isn't put either.
    if keep_drawn(active, drawn).is_err() {
        trace.stop();
    }
    trace.note_begin(session, mode, &number_answer(drawn));
}

// Keeps a number that was drawn.
fn keep_drawn(active: &mut Active, drawn: &Result<TxNo, Refusal>) -> Result<(), Memory>
    ensures { OnOk result (active.new ≡ with_drawn active.old drawn.now) }
{
    match drawn {
        Ok(t) => active.add(*t),
        Err(_) => Ok(()),
    }
}

/// Takes out the number of a transaction that has ended, if it has.
pub(crate) fn note_ended(active: &mut Active, t: TxNo, done: &Result<(), Refusal>)
    ensures { active.new ≡ after_end active.old t done.now }
{
    if done.is_ok() {
        active.remove(t);
    }
}
