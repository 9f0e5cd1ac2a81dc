//! What an event is answered.

ghost use Rattle.std.specs.Prelude.{◌≡◌, IfOk, unwrap_or, filter, map};
ghost use Rattle.mg_model.specs.Answers.{answer_by};
ghost use Rattle.mg_model.specs.Answers.{obstacle as obstacle_of, table_obstacle as table_obstacle_of};
ghost use Rattle.mg_model.specs.Answers.{verdict as verdict_of};
ghost use Rattle.mg_model.specs.Answers.{past, if_writable, if_active, if_limbo, passes as passes_test};
ghost use Rattle.mg_model.specs.Answers.{answer_insert as answer_insert_of, answer_give as answer_give_of, answer_claim as answer_claim_of};
ghost use Rattle.mg_model.specs.Answers.{answer_find as answer_find_of, answer_active as answer_active_of, answer_begin as answer_begin_of};
ghost use Rattle.mg_model.specs.declared.answer.Answer.{Answer as AnyAnswer};
ghost use Rattle.mg_plain.specs.Keeping.{told_in};
ghost use Rattle.mg_plain.specs.Kept.{kept};

use crate::Plain;
use mg_base::{Memory, TxNo, TxState};
use mg_expr::{EvalFault, Expr};
use mg_model::{Answer, Event, Refusal, Rows};
use mg_value::{Name, Row, Truth, Value};
use std::alloc::Global;

impl Plain {
    /// What a transaction is answered where another one is in its way.
    pub(crate) fn verdict(&self, t: u32, u: u32) -> Answer
        ensures { result ≡ verdict_of (told_in (kept self.now)) t u }
    {
        match self.known(u).state {
            TxState::Committed => Answer::No(Refusal::UpdateConflict { by: TxNo(u) }),
            TxState::Limbo => Answer::No(Refusal::InLimbo { by: TxNo(u) }),
            TxState::Dead => Answer::Fine,
            TxState::Active => {
                if !self.known(t).mode.wait {
                    Answer::No(Refusal::LockConflict { by: TxNo(u) })
                } else if self.closes(t, u) {
                    Answer::No(Refusal::Deadlock { by: TxNo(u) })
                } else {
                    Answer::No(Refusal::Waits { on: TxNo(u) })
                }
            }
        }
    }

    /// What hinders a write to a table, if anything does: the transaction's mode, that it sees no
    /// such table, or the obstacle of the table's own row.
    pub(crate) fn table_refusal(&self, t: u32, table: &Name) -> Result<Option<Answer>, Memory>
        ensures { IfOk result (λ refusal. (next : AnyAnswer)
            → unwrap_or refusal next ≡ if_writable (told_in (kept self.now)) t table.now
            (past (told_in (kept self.now)) t
            (table_obstacle_of (told_in (kept self.now)) t table.now) next)) }
    {
        if self.known(t).mode.read_only {
            return Ok(Some(Answer::No(Refusal::ReadOnly)));
        }
        if !self.has_table(t, table)? {
            return Ok(Some(Answer::No(Refusal::NoTable)));
        }
        match self.table_obstacle(t, table)? {
            Some(by) => Ok(Some(self.verdict(t, by))),
            None => Ok(None),
        }
    }

    /// What a write of a key is answered once nothing of its table hinders it.
    pub(crate) fn answer_key(&self, t: u32, table: &Name, key: &Value) -> Answer
        ensures { result ≡ past (told_in (kept self.now)) t
            (obstacle_of (told_in (kept self.now)) t table.now key.now) Answer.Fine }
    {
        match self.obstacle(t, table.as_slice(), key) {
            Some(by) => self.verdict(t, by),
            None => Answer::Fine,
        }
    }

    /// What a new row with a key is answered.
    pub(crate) fn answer_insert(&self, t: u32, table: &Name, key: &Value) -> Result<Answer, Memory>
        ensures { IfOk result (λ answer. answer
            ≡ answer_insert_of (told_in (kept self.now)) t table.now key.now) }
    {
        match self.table_refusal(t, table)? {
            Some(refusal) => Ok(refusal),
            None => {
                if self.has_row(t, table, key) {
                    Ok(Answer::No(Refusal::DuplicateKey))
                } else {
                    Ok(self.answer_key(t, table, key))
                }
            }
        }
    }

    /// What another row, or none, for a key is answered.
    pub(crate) fn answer_give(&self, t: u32, table: &Name, key: &Value) -> Result<Answer, Memory>
        ensures { IfOk result (λ answer. answer
            ≡ answer_give_of (told_in (kept self.now)) t table.now key.now) }
    {
        match self.table_refusal(t, table)? {
            Some(refusal) => Ok(refusal),
            None => {
                if self.has_row(t, table, key) {
                    Ok(self.answer_key(t, table, key))
                } else {
                    Ok(Answer::No(Refusal::NoRow))
                }
            }
        }
    }

    /// What a claim on a table is answered.
    pub(crate) fn answer_claim(&self, t: u32, table: &Name) -> Result<Answer, Memory>
        ensures { IfOk result (λ answer. answer
            ≡ answer_claim_of (told_in (kept self.now)) t table.now) }
    {
        if self.known(t).mode.read_only {
            return Ok(Answer::No(Refusal::ReadOnly));
        }
        if !self.has_table(t, table)? {
            return Ok(Answer::No(Refusal::NoTable));
        }
        match self.claim_obstacle(t, table)? {
            Some(by) => Ok(self.verdict(t, by)),
            None => Ok(Answer::Fine),
        }
    }

    /// What a search of a table is answered.
    pub(crate) fn answer_find(
        &self,
        t: u32,
        table: &Name,
        test: &Option<Expr>,
    ) -> Result<Answer, Memory>
        ensures { IfOk result (λ answer. answer
            ≡ answer_find_of (told_in (kept self.now)) t table.now test.now) }
    {
        if !self.has_table(t, table)? {
            return Ok(Answer::No(Refusal::NoTable));
        }
        let rows = self.seen_rows(t, table)?;
        Ok(Answer::Rows(Rows::new(passing(self.alloc, &rows, test)?)))
    }

    /// What an event of an active transaction is answered.
    pub(crate) fn answer_active(&self, t: u32, event: &Event) -> Result<Answer, Memory>
        ensures { IfOk result (λ answer. answer
            ≡ answer_active_of (told_in (kept self.now)) t event.now) }
    {
        match event {
            Event::Find(_, table, test) => self.answer_find(t, table, test),
            Event::Claim(_, table) => self.answer_claim(t, table),
            Event::Insert(_, table, row) => {
                let key = self.key_of(t, table, row)?;
                self.answer_insert(t, table, &key)
            }
            Event::Change(_, table, key, _) => self.answer_give(t, table, key.value()),
            Event::Erase(_, table, key) => self.answer_give(t, table, key.value()),
            Event::Begin(_, _) => Ok(Answer::Fine),
            Event::Look(_) => Ok(Answer::Fine),
            Event::Mark(_) => Ok(Answer::Fine),
            Event::UndoMark(_) => Ok(Answer::Fine),
            Event::Savepoint(_, _) => Ok(Answer::Fine),
            Event::BackTo(_, _) => Ok(Answer::Fine),
            Event::Prepare(_) => Ok(Answer::Fine),
            Event::Commit(_) => Ok(Answer::Fine),
            Event::Rollback(_) => Ok(Answer::Fine),
            Event::Decide(_, _) => Ok(Answer::Fine),
        }
    }

    /// What a transaction's beginning is answered.
    pub(crate) fn answer_begin(&self) -> Answer
        ensures { result ≡ answer_begin_of (told_in (kept self.now)) }
    {
        let limit = self.limit;
        let next = self.known.len();
        if next == limit as usize {
            Answer::No(Refusal::TransactionLimit)
        } else {
            Answer::Tx(TxNo(next as u32))
        }
    }

    /// What a decision on a transaction is answered.
    pub(crate) fn answer_decide(&self, t: u32) -> Answer
        ensures { result ≡ if_limbo ((told_in (kept self.now)).state t) }
    {
        let state = self.known(t).state;
        if state == TxState::Limbo {
            Answer::Fine
        } else {
            Answer::No(Refusal::NotActive { state })
        }
    }

    /// What an event of a transaction is answered.
    pub(crate) fn answer_of(&self, t: u32, event: &Event) -> Result<Answer, Memory>
        ensures { IfOk result (λ answer. answer
            ≡ if_active ((told_in (kept self.now)).state t)
            (answer_active_of (told_in (kept self.now)) t event.now)) }
    {
        let state = self.known(t).state;
        if state == TxState::Active {
            self.answer_active(t, event)
        } else {
            Ok(Answer::No(Refusal::NotActive { state }))
        }
    }

    /// What an event is answered.
    pub(crate) fn judge(&self, event: &Event) -> Result<Answer, Memory>
        ensures { IfOk result (λ answer. answer ≡ answer_by (told_in (kept self.now)) event.now) }
    {
        match event {
            Event::Begin(_, _) => Ok(self.answer_begin()),
            Event::Decide(t, _) => Ok(self.answer_decide(t.0)),
            Event::Look(t) => self.answer_of(t.0, event),
            Event::Find(t, _, _) => self.answer_of(t.0, event),
            Event::Claim(t, _) => self.answer_of(t.0, event),
            Event::Insert(t, _, _) => self.answer_of(t.0, event),
            Event::Change(t, _, _, _) => self.answer_of(t.0, event),
            Event::Erase(t, _, _) => self.answer_of(t.0, event),
            Event::Mark(t) => self.answer_of(t.0, event),
            Event::UndoMark(t) => self.answer_of(t.0, event),
            Event::Savepoint(t, _) => self.answer_of(t.0, event),
            Event::BackTo(t, _) => self.answer_of(t.0, event),
            Event::Prepare(t) => self.answer_of(t.0, event),
            Event::Commit(t) => self.answer_of(t.0, event),
            Event::Rollback(t) => self.answer_of(t.0, event),
        }
    }
}

/// Copies of the rows that pass a filter, in their order.
pub(crate) fn passing(
    alloc: Global,
    rows: &[(Value, Row)],
    test: &Option<Expr>,
) -> Result<Vec<Row>, Memory>
    ensures { IfOk result (λ passing. passing.items
        ≡ filter (passes_test test.now) (map (λ row. row.1) rows.now)) }
{
    let mut passing = Vec::new(alloc);
    for row in rows {
        if passes(alloc, test, &row.1)? {
            passing.push(row.1.copy(alloc)?)?;
        }
    }
    Ok(passing)
}

/// Tells whether a row passes a filter. One whose arithmetic faults doesn't.
pub(crate) fn passes(alloc: Global, test: &Option<Expr>, row: &Row) -> Result<bool, Memory>
    ensures { IfOk result (λ passes. passes ≡ passes_test test.now row.now) }
{
    let Some(expr) = test else {
        return Ok(true);
    };
    match mg_expr::test(alloc, expr, row) {
        Ok(Truth::True) => Ok(true),
        Ok(Truth::Unknown) => Ok(false),
        Ok(Truth::False) => Ok(false),
        Err(EvalFault::Arithmetic) => Ok(false),
        Err(EvalFault::Memory) => Err(Memory),
    }
}
