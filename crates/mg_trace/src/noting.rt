//! Lines are added, each of an event with its answer. Parts of events are borrowed, so nothing is copied.

ghost use Rattle.mg_model.specs.declared.answer.Answer.TheVariants as answers;
ghost use Rattle.mg_model.specs.declared.event.Event.TheVariants as events;
ghost use Rattle.mg_trace.specs.Putting.{AddsLine};

use crate::answer::{end_answer, end_rows};
use crate::event::{
    put_begin, put_by, put_change, put_erase, put_event, put_find, put_insert, put_named,
};
use crate::trace::Trace;
use mg_base::TxNo;
use mg_expr::Expr;
use mg_model::{Answer, Event, Mode, Rows};
use mg_value::{Key, Name, Row};

impl Trace {
    /// Adds the line of an event with its answer.
    pub fn note(&mut self, event: &Event, answer: &Answer)
        ensures { AddsLine self.old self.new event.now answer.now }
    {
        let begun = self.text.len();
        put_event(self, event);
        end_answer(self, begun, answer);
    }

    /// Adds the line of a beginning.
    pub fn note_begin(&mut self, session: u8, mode: Mode, answer: &Answer)
        ensures { AddsLine self.old self.new (events.Begin session mode) answer.now }
    {
        let begun = self.text.len();
        put_begin(self, session, mode);
        end_answer(self, begun, answer);
    }

    /// Adds the line of a statement's beginning.
    pub fn note_look(&mut self, t: TxNo, answer: &Answer)
        ensures { AddsLine self.old self.new (events.Look t) answer.now }
    {
        let begun = self.text.len();
        put_by(self, "LOOK ", t.0);
        end_answer(self, begun, answer);
    }

    /// Adds the line of a finding that is answered so.
    pub fn note_find(&mut self, t: TxNo, table: &Name, filter: &Option<Expr>, answer: &Answer)
        ensures { AddsLine self.old self.new (events.Find t table.now filter.now) answer.now }
    {
        let begun = self.text.len();
        put_find(self, t, table, filter);
        end_answer(self, begun, answer);
    }

    /// Adds the line of a finding with the rows that were found.
    pub fn note_rows(&mut self, t: TxNo, table: &Name, filter: &Option<Expr>, rows: &Rows)
        ensures { AddsLine self.old self.new (events.Find t table.now filter.now) (answers.Rows rows.now) }
    {
        let begun = self.text.len();
        put_find(self, t, table, filter);
        end_rows(self, begun, rows.as_slice());
    }

    /// Adds the line of a new row.
    pub fn note_insert(&mut self, t: TxNo, table: &Name, row: &Row, answer: &Answer)
        ensures { AddsLine self.old self.new (events.Insert t table.now row.now) answer.now }
    {
        let begun = self.text.len();
        put_insert(self, t, table, row);
        end_answer(self, begun, answer);
    }

    /// Adds the line of a row that a key comes to have.
    pub fn note_change(&mut self, t: TxNo, table: &Name, key: &Key, row: &Row, answer: &Answer)
        ensures { AddsLine self.old self.new (events.Change t table.now key.now row.now) answer.now }
    {
        let begun = self.text.len();
        put_change(self, t, table, key, row);
        end_answer(self, begun, answer);
    }

    /// Adds the line of a row that is deleted.
    pub fn note_erase(&mut self, t: TxNo, table: &Name, key: &Key, answer: &Answer)
        ensures { AddsLine self.old self.new (events.Erase t table.now key.now) answer.now }
    {
        let begun = self.text.len();
        put_erase(self, t, table, key);
        end_answer(self, begun, answer);
    }

    /// Adds the line of a mark.
    pub fn note_mark(&mut self, t: TxNo, answer: &Answer)
        ensures { AddsLine self.old self.new (events.Mark t) answer.now }
    {
        let begun = self.text.len();
        put_by(self, "MARK ", t.0);
        end_answer(self, begun, answer);
    }

    /// Adds the line of a taking back to the last mark.
    pub fn note_undo_mark(&mut self, t: TxNo, answer: &Answer)
        ensures { AddsLine self.old self.new (events.UndoMark t) answer.now }
    {
        let begun = self.text.len();
        put_by(self, "UNDOMARK ", t.0);
        end_answer(self, begun, answer);
    }

    /// Adds the line of a savepoint.
    pub fn note_savepoint(&mut self, t: TxNo, name: &Name, answer: &Answer)
        ensures { AddsLine self.old self.new (events.Savepoint t name.now) answer.now }
    {
        let begun = self.text.len();
        put_named(self, "SAVEPOINT ", t, name);
        end_answer(self, begun, answer);
    }

    /// Adds the line of a taking back to a savepoint.
    pub fn note_back_to(&mut self, t: TxNo, name: &Name, answer: &Answer)
        ensures { AddsLine self.old self.new (events.BackTo t name.now) answer.now }
    {
        let begun = self.text.len();
        put_named(self, "BACKTO ", t, name);
        end_answer(self, begun, answer);
    }

    /// Adds the line of a commit.
    pub fn note_commit(&mut self, t: TxNo, answer: &Answer)
        ensures { AddsLine self.old self.new (events.Commit t) answer.now }
    {
        let begun = self.text.len();
        put_by(self, "COMMIT ", t.0);
        end_answer(self, begun, answer);
    }

    /// Adds the line of a rolling back.
    pub fn note_rollback(&mut self, t: TxNo, answer: &Answer)
        ensures { AddsLine self.old self.new (events.Rollback t) answer.now }
    {
        let begun = self.text.len();
        put_by(self, "ROLLBACK ", t.0);
        end_answer(self, begun, answer);
    }
}
