//! Events of the calls of a keeper of records: one for which memory is short stands as refused.

ghost use Rattle.std.specs.Prelude.{◌≡◌, Some, IfErr, false, true};
ghost use Rattle.mg_model.specs.History.{transaction_of as transaction_of_event};
ghost use Rattle.mg_model.specs.declared.event.Event.{Event as AnyEvent};
ghost use Rattle.mg_plain.specs.Keeping.{known_of};
ghost use Rattle.mg_plain.specs.Kept.{kept};
ghost use Rattle.mg_plain.specs.Obeying.{told_by, is_short_event, seer_of, event_back, as_done as as_done_of, ExpectsActive, Obeys, IsDone};
ghost use Rattle.mg_records.specs.TakingBack.{is_given_up};

use crate::Plain;
use crate::plain::taking::transaction_of;
use mg_base::{TxNo, TxState};
use mg_model::{Answer, Event, Point, Refusal};
use mg_value::{Key, Name, Row};

impl Plain {
    /// Tells whether a transaction is active, and else refuses it.
    pub(crate) fn expect_active(&self, t: TxNo) -> Result<(), Refusal>
        ensures { ExpectsActive (known_of (kept self.now) t.0).state result }
    {
        match self.known(t.0).state {
            TxState::Active => Ok(()),
            TxState::Limbo => Err(Refusal::NotActive {
                state: TxState::Limbo,
            }),
            TxState::Dead => Err(Refusal::NotActive {
                state: TxState::Dead,
            }),
            TxState::Committed => Err(Refusal::NotActive {
                state: TxState::Committed,
            }),
        }
    }

    /// Answers an event.
    pub(crate) fn obey(&mut self, event: &Event) -> Result<Answer, Refusal>
        ensures obeys { Obeys (kept self.old) (kept self.new) event.now (told_by result) }
        ensures err { IfErr result (λ refusal. refusal ≡ Refusal.Memory) }
    {
        match self.answer(event) {
            Ok(answer) => Ok(answer),
            Err(_) => {
                self.note(transaction_of(event), None);
                Err(Refusal::Memory)
            }
        }
    }

    /// Answers an event whose answer is Fine or a refusal.
    pub(crate) fn finish(&mut self, event: Event) -> Result<(), Refusal>
        requires short { is_short_event event ≡ true }
        ensures { IsDone (kept self.old) (kept self.new) event result (seer_of event) }
    {
        let given = self.obey(&event);
        drop(event);
        as_done(given)
    }

    /// Refuses an event of a transaction for want of memory.
    pub(crate) fn fail(&mut self, t: TxNo) -> Result<(), Refusal>
        ensures done { (event : AnyEvent) → transaction_of_event event ≡ Some t.0
            → IsDone (kept self.old) (kept self.new) event result (Some t.0) }
        ensures err { result ≡ Err Refusal.Memory }
    {
        self.note(Some(t.0), None);
        Err(Refusal::Memory)
    }

    /// Makes a row of a table.
    pub(crate) fn insert_row(&mut self, t: TxNo, table: &Name, row: &Row) -> Result<(), Refusal>
        ensures { IsDone (kept self.old) (kept self.new) (AnyEvent.Insert t table.now row.now)
            result (Some t.0) }
    {
        match row.copy(self.alloc) {
            Ok(row) => self.finish(Event::Insert(t, *table, row)),
            Err(_) => self.fail(t),
        }
    }

    /// Gives a key of a table another row.
    pub(crate) fn change_row(
        &mut self,
        t: TxNo,
        table: &Name,
        key: &Key,
        row: &Row,
    ) -> Result<(), Refusal>
        ensures { IsDone (kept self.old) (kept self.new)
            (AnyEvent.Change t table.now key.now row.now) result (Some t.0) }
    {
        match key.copy(self.alloc) {
            Ok(key) => match row.copy(self.alloc) {
                Ok(row) => self.finish(Event::Change(t, *table, key, row)),
                Err(_) => self.fail(t),
            },
            Err(_) => self.fail(t),
        }
    }

    /// Deletes the row with a key of a table.
    pub(crate) fn erase_row(&mut self, t: TxNo, table: &Name, key: &Key) -> Result<(), Refusal>
        ensures { IsDone (kept self.old) (kept self.new) (AnyEvent.Erase t table.now key.now)
            result (Some t.0) }
    {
        match key.copy(self.alloc) {
            Ok(key) => self.finish(Event::Erase(t, *table, key)),
            Err(_) => self.fail(t),
        }
    }

    /// Takes a transaction back to a point, without memory.
    pub(crate) fn go_back(&mut self, t: TxNo, point: Point) -> Result<(), Refusal>
        ensures done { IsDone (kept self.old) (kept self.new) (event_back t point) result (Some t.0) }
        ensures err { IfErr result (λ refusal. is_given_up refusal ≡ false) }
    {
        match self.expect_active(t) {
            Ok(()) => {}
            Err(refusal) => {
                self.note(Some(t.0), None);
                return Err(refusal);
            }
        }
        self.take_back(t.0, point);
        self.note(Some(t.0), None);
        Ok(())
    }
}

/// A short answer as a result.
fn as_done(given: Result<Answer, Refusal>) -> Result<(), Refusal>
    ensures { result ≡ as_done_of given }
{
    match given {
        Ok(Answer::Fine) => Ok(()),
        Ok(Answer::Tx(_)) => Ok(()),
        Ok(Answer::Rows(_)) => Ok(()),
        Ok(Answer::No(refusal)) => Err(refusal),
        Err(refusal) => Err(refusal),
    }
}
