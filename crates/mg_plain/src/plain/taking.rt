//! What an event does with its answer.

ghost use Rattle.std.specs.Prelude.{◌≡◌, ◌≢◌, ◌+◌, ◌<◌, ◌≤◌, nat_eq, if◌then◌else◌, Some, None, OnOk, OnErr, length, slice_index_or};
ghost use Rattle.std.specs.List.{remove};
ghost use Rattle.mg_model.specs.Catalog.{key_in};
ghost use Rattle.mg_model.specs.Answers.{answer_by};
ghost use Rattle.mg_model.specs.Answers.{catalog_of};
ghost use Rattle.mg_plain.specs.Keeping.{told_in};
ghost use Rattle.mg_plain.specs.Keeping.{with_known, begun, looked, stepped, ended, kept_by, noted_in, waits_by as waits_by_answer};
ghost use Rattle.mg_model.specs.Machine.{changed, taken_back};
ghost use Rattle.mg_model.specs.History.{deed_of, effect_with, decided, transaction_of as transaction_of_event};
ghost use Rattle.mg_plain.specs.TakenBack.{cleared, nobody, span};
ghost use Rattle.mg_plain.specs.Kept.{kept};

use crate::Plain;
use crate::known::Known;
use crate::lookup::{own_changes, point_place};
use mg_base::{Memory, TxNo, TxState};
use mg_model::{Answer, Change, Deed, Event, Mode, Point, Refusal, Step};
use mg_value::{Key, Name, Row};

impl Plain {
    /// What is known of a transaction becomes this; a number that was not drawn stays unknown.
    pub(crate) fn set_known(&mut self, t: u32, known: Known)
        requires { known.base ≤ length (kept self.old).database }
        ensures { kept self.new ≡ with_known (kept self.old) t known }
    {
        let at = t as usize;
        if at < self.known.len() {
            self.known[at] = known;
        }
    }

    /// A transaction begins, and takes its base.
    pub(crate) fn begin(&mut self, mode: Mode) -> Result<(), Memory>
        requires { length (kept self.old).known < (kept self.old).limit }
        ensures ok { OnOk result (kept self.new ≡ begun mode (kept self.old)) }
        ensures err { OnErr result (kept self.new ≡ kept self.old) }
    {
        let known = Known {
            state: TxState::Active,
            mode,
            base: self.database.len(),
            saw: self.committed.len(),
            place: 0,
            waits: None,
        };
        match self.known.push(known) {
            Ok(()) => Ok(()),
            Err(_) => Err(Memory),
        }
    }

    /// A statement of a transaction begins: under READ COMMITTED it takes a new base.
    pub(crate) fn look(&mut self, t: u32)
        ensures { kept self.new ≡ looked t (kept self.old) }
    {
        let mut known = self.known(t);
        if known.mode.snapshot {
            return;
        }
        known.base = self.database.len();
        known.saw = self.committed.len();
        self.set_known(t, known);
    }

    /// A step more stands.
    pub(crate) fn stand(&mut self, t: TxNo, deed: Deed) -> Result<(), Memory>
        ensures ok { OnOk result (kept self.new ≡ stepped t.0 deed (kept self.old)) }
        ensures err { OnErr result (kept self.new ≡ kept self.old) }
    {
        self.steps.insert(0, Step { by: t, deed })?;
        Ok(())
    }

    /// A transaction is taken back to a point, if it has set one.
    pub(crate) fn take_back(&mut self, t: u32, point: Point)
        ensures { kept self.new ≡ record (kept self.old) {
          steps = taken_back t point (kept self.old).steps;
        } }
    {
        if let Some(place) = point_place(&self.steps, t, &point) {
            clear_since(&mut self.steps, t, &point, place);
        }
    }

    /// A transaction comes to limbo, or is rolled back.
    pub(crate) fn end(&mut self, t: u32, state: TxState)
        requires { state ≢ TxState.Committed }
        ensures { kept self.new ≡ ended t state (kept self.old) }
    {
        let mut known = self.known(t);
        known.state = state;
        self.set_known(t, known);
    }

    /// A transaction is committed: its changes come to the database.
    pub(crate) fn commit(&mut self, t: TxNo) -> Result<(), Memory>
        ensures ok { OnOk result (kept self.new ≡ ended t.0 TxState.Committed (kept self.old)) }
        ensures err { OnErr result (kept self.new ≡ kept self.old) }
    {
        let mut changes = own_changes(self.alloc, &self.steps, t.0)?;
        if self.committed.push(t).is_err() {
            return Err(Memory);
        }
        if changes.append(&mut self.database).is_err() {
            self.committed.pop();
            return Err(Memory);
        }
        self.database = changes;
        let mut known = self.known(t.0);
        known.state = TxState::Committed;
        known.place = self.committed.len();
        self.set_known(t.0, known);
        Ok(())
    }

    /// A row of a table is made, under its key.
    pub(crate) fn make(&mut self, t: TxNo, table: &Name, row: &Row) -> Result<(), Memory>
        ensures ok { OnOk result (kept self.new ≡ stepped t.0
            (changed table.now
            (key_in (catalog_of (told_in (kept self.old)) t.0) table.now row.now) (Some row.now))
            (kept self.old)) }
        ensures err { OnErr result (kept self.new ≡ kept self.old) }
    {
        let key = self.key_of(t.0, table, row)?;
        let row = Some(row.copy(self.alloc)?);
        self.stand(
            t,
            Deed::Changed(Change {
                table: *table,
                key,
                row,
            }),
        )
    }

    /// A key of a table has this row now.
    pub(crate) fn give(&mut self, t: TxNo, table: &Name, key: &Key, row: &Row) -> Result<(), Memory>
        ensures ok { OnOk result (kept self.new
            ≡ stepped t.0 (changed table.now key.now (Some row.now)) (kept self.old)) }
        ensures err { OnErr result (kept self.new ≡ kept self.old) }
    {
        let key = key.value().copy(self.alloc)?;
        let row = Some(row.copy(self.alloc)?);
        self.stand(
            t,
            Deed::Changed(Change {
                table: *table,
                key,
                row,
            }),
        )
    }

    /// A key of a table has no row now.
    pub(crate) fn erase(&mut self, t: TxNo, table: &Name, key: &Key) -> Result<(), Memory>
        ensures ok { OnOk result (kept self.new
            ≡ stepped t.0 (changed table.now key.now None) (kept self.old)) }
        ensures err { OnErr result (kept self.new ≡ kept self.old) }
    {
        let key = key.value().copy(self.alloc)?;
        self.stand(
            t,
            Deed::Changed(Change {
                table: *table,
                key,
                row: None,
            }),
        )
    }

    /// What an event does that takes effect.
    pub(crate) fn take_deed(&mut self, event: &Event) -> Result<(), Memory>
        ensures ok { OnOk result (kept self.new ≡ kept_by (deed_of event.now) (kept self.old)) }
        ensures err { OnErr result (kept self.new ≡ kept self.old) }
    {
        match event {
            Event::Begin(_, _) => Ok(()),
            Event::Look(t) => {
                self.look(t.0);
                Ok(())
            }
            Event::Find(_, _, _) => Ok(()),
            Event::Claim(_, _) => Ok(()),
            Event::Insert(t, table, row) => self.make(*t, table, row),
            Event::Change(t, table, key, row) => self.give(*t, table, key, row),
            Event::Erase(t, table, key) => self.erase(*t, table, key),
            Event::Mark(t) => self.stand(*t, Deed::Marked),
            Event::UndoMark(t) => {
                self.take_back(t.0, Point::LastMark);
                Ok(())
            }
            Event::Savepoint(t, name) => self.stand(*t, Deed::Saved(*name)),
            Event::BackTo(t, name) => {
                self.take_back(t.0, Point::SavepointNamed(*name));
                Ok(())
            }
            Event::Prepare(t) => {
                self.end(t.0, TxState::Limbo);
                Ok(())
            }
            Event::Commit(t) => self.commit(*t),
            Event::Rollback(t) => {
                self.end(t.0, TxState::Dead);
                Ok(())
            }
            Event::Decide(t, commit) => self.decide(*t, *commit),
        }
    }

    /// A transaction in limbo is committed, or rolled back.
    pub(crate) fn decide(&mut self, t: TxNo, commit: bool) -> Result<(), Memory>
        ensures ok { OnOk result (kept self.new ≡ ended t.0 (decided commit) (kept self.old)) }
        ensures err { OnErr result (kept self.new ≡ kept self.old) }
    {
        if commit {
            return self.commit(t);
        }
        self.end(t.0, TxState::Dead);
        Ok(())
    }

    /// What an event does with its answer.
    pub(crate) fn take_effect(&mut self, event: &Event, answer: &Answer) -> Result<(), Memory>
        requires { answer.now ≡ answer_by (told_in (kept self.old)) event.now }
        ensures ok { OnOk result
            (kept self.new ≡ kept_by (effect_with event.now answer.now) (kept self.old)) }
        ensures err { OnErr result (kept self.new ≡ kept self.old) }
    {
        match answer {
            Answer::Fine => self.take_deed(event),
            Answer::Tx(_) => match event {
                Event::Begin(_, mode) => self.begin(*mode),
                _ => Ok(()),
            },
            Answer::Rows(_) => Ok(()),
            Answer::No(_) => Ok(()),
        }
    }

    /// A transaction waits on another one, or on none.
    pub(crate) fn note(&mut self, t: Option<u32>, on: Option<TxNo>)
        ensures { kept self.new ≡ noted_in t on (kept self.old) }
    {
        if let Some(t) = t {
            let mut known = self.known(t);
            known.waits = on;
            self.set_known(t, known);
        }
    }
}

/// The transaction whose event it is.
pub(crate) fn transaction_of(event: &Event) -> Option<u32>
    ensures { result ≡ transaction_of_event event.now }
{
    match event {
        Event::Begin(_, _) => None,
        Event::Look(t) => Some(t.0),
        Event::Find(t, _, _) => Some(t.0),
        Event::Claim(t, _) => Some(t.0),
        Event::Insert(t, _, _) => Some(t.0),
        Event::Change(t, _, _, _) => Some(t.0),
        Event::Erase(t, _, _) => Some(t.0),
        Event::Mark(t) => Some(t.0),
        Event::UndoMark(t) => Some(t.0),
        Event::Savepoint(t, _) => Some(t.0),
        Event::BackTo(t, _) => Some(t.0),
        Event::Prepare(t) => Some(t.0),
        Event::Commit(t) => Some(t.0),
        Event::Rollback(t) => Some(t.0),
        Event::Decide(t, _) => Some(t.0),
    }
}

/// The transaction that an answer waits on.
pub(crate) fn waits_by(answer: &Answer) -> Option<TxNo>
    ensures { result ≡ waits_by_answer answer.now }
{
    match answer {
        Answer::No(Refusal::Waits { on }) => Some(*on),
        _ => None,
    }
}

/// Takes the steps of a transaction since a point out, which stands at a place: a mark ends, and a
/// savepoint stays.
pub(crate) fn clear_since(steps: &mut Vec<Step>, by: u32, point: &Point, place: usize)
    requires { place < length steps.old.items }
    ensures { steps.new.items ≡ cleared by (span point.now place) steps.old.items }
{
    match point {
        Point::LastMark => clear_front(steps, by, place + 1),
        Point::SavepointNamed(_) => clear_front(steps, by, place),
    }
}

/// Takes the steps of a transaction out of the first ones.
pub(crate) fn clear_front(steps: &mut Vec<Step>, by: u32, count: usize)
    requires { count ≤ length steps.old.items }
    ensures { steps.new.items ≡ cleared by count steps.old.items }
{
    let mut left = count;
    while left > 0 {
        left -= 1;
        clear_one(steps, by, left);
    }
}

/// Takes the step at a place out, if it is one of the transaction.
pub(crate) fn clear_one(steps: &mut Vec<Step>, by: u32, place: usize)
    requires { place < length steps.old.items }
    ensures { steps.new.items ≡ (if nat_eq (slice_index_or steps.old.items place nobody).by.0 by
        then remove steps.old.items place else steps.old.items) }
{
    if steps[place].by.0 == by {
        steps.remove(place);
    }
}
