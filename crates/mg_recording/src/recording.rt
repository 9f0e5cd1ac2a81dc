//! The keeper that records.

ghost use Rattle.std.specs.Prelude.{◌≡◌, ◌≢◌, ℕ, []};
ghost use Rattle.mg_base.specs.declared.transaction.TxState.TheVariants as states;
ghost use Rattle.mg_model.specs.declared.opening.Opening.{Opening};
ghost use Rattle.mg_model.specs.Machine.{opening_state};

use crate::active::{Active, note_begun, note_ended};
use crate::answers::{fine_answer, note_found, note_write};
use crate::backs::{note_gone_back, note_undone};
use crate::making::note_table;
use mg_base::{Memory, TxNo};
use mg_expr::Expr;
use mg_model::{Mode, Refusal, Rows, Table};
use mg_records::{Found, Records, Write};
use mg_trace::Trace;
use mg_value::{Name, Shape};
use std::alloc::Global;

/// A keeper of records with the trace of its history.
#[derive(Drop)]
pub struct Recording<R> {
    pub keeper: R,
    pub trace: Trace,
    /// The numbers of the transactions that are active, as long as the trace is whole.
    active: Active,
}

impl<R: Records> Recording<R> {
    /// The keeper that records from here on. It takes no memory. Where the one below stands for a history without
    /// an entry, in whose opening no transaction is active, so does it.
    pub fn new(alloc: Global, keeper: R) -> Recording<R>
        ensures keeper { result.keeper ≡ keeper }
        ensures stands { (o : Opening) → ((t : ℕ) → opening_state o t ≢ states.Active) → R.meaning.stands keeper o []
            → ⟦<Recording<R> as Records>⟧.meaning.stands result o [] }
    {
        Recording {
            keeper,
            trace: Trace::new(alloc),
            active: Active::new(alloc),
        }
    }
}

impl<R: Records> Records for Recording<R> {
    ghost use Rattle.mg_recording.specs.Knowing.{Knows};
    ghost use Rattle.mg_recording.specs.Via.{via};
    ghost use Rattle.mg_recording.specs.ViaLaws.{crashes_via, few_via, lasts_via, one_via, seen_via, whole_via};

    type Place = R::Place;

    ghost meaning = { via R.meaning (λ t. t.keeper) (λ t o h. Knows t.trace t.active o h) };

    fn copy_place(alloc: Global, place: &R::Place) -> Result<R::Place, Memory> {
        R::copy_place(alloc, place)
    }

    fn begin(&mut self, session: u8, mode: Mode) -> Result<TxNo, Refusal> {
        let result = self.keeper.begin(session, mode);
        note_begun(&mut self.trace, &mut self.active, session, mode, &result);
        result
    }

    fn look(&mut self, t: TxNo) -> Result<(), Refusal> {
        let result = self.keeper.look(t);
        self.trace.note_look(t, &fine_answer(&result));
        result
    }

    fn table(&mut self, t: TxNo, name: &Name) -> Result<Table, Refusal> {
        self.keeper.table(t, name)
    }

    fn scan_step(
        &mut self,
        t: TxNo,
        table: &Table,
        after: Option<&R::Place>,
    ) -> Result<Option<Found<R::Place>>, Refusal> {
        self.keeper.scan_step(t, table, after)
    }

    fn found(
        &mut self,
        t: TxNo,
        name: &Name,
        filter: &Option<Expr>,
        rows: &Rows,
    ) -> Result<(), Refusal> {
        let result = self.keeper.found(t, name, filter, rows);
        note_found(&mut self.trace, t, name, filter, rows, &result);
        result
    }

    fn write_step(&mut self, t: TxNo, table: &Table, write: &Write) -> Result<(), Refusal> {
        let result = self.keeper.write_step(t, table, write);
        note_write(
            &mut self.trace,
            t,
            &table.name,
            write,
            &fine_answer(&result),
        );
        result
    }

    fn create_table(&mut self, t: TxNo, name: &Name, shape: &Shape) -> Result<(), Refusal> {
        let result = self.keeper.create_table(t, name, shape);
        note_table(&mut self.trace, t, name, shape, &result);
        result
    }

    fn mark(&mut self, t: TxNo) -> Result<(), Refusal> {
        let result = self.keeper.mark(t);
        self.trace.note_mark(t, &fine_answer(&result));
        result
    }

    fn undo_mark(&mut self, t: TxNo) -> Result<(), Refusal> {
        let result = self.keeper.undo_mark(t);
        note_undone(&mut self.trace, &mut self.active, t, &result);
        result
    }

    fn savepoint(&mut self, t: TxNo, name: &Name) -> Result<(), Refusal> {
        let result = self.keeper.savepoint(t, name);
        self.trace.note_savepoint(t, name, &fine_answer(&result));
        result
    }

    fn back_to(&mut self, t: TxNo, name: &Name) -> Result<bool, Refusal> {
        let result = self.keeper.back_to(t, name);
        note_gone_back(&mut self.trace, &mut self.active, t, name, &result);
        result
    }

    fn commit_ask(&mut self, t: TxNo) -> Result<(), Refusal> {
        self.keeper.commit_ask(t)
    }

    fn commit_step(&mut self, t: TxNo) -> Result<bool, Refusal> {
        self.keeper.commit_step(t)
    }

    fn commit_end(&mut self, t: TxNo) -> Result<(), Refusal> {
        let result = self.keeper.commit_end(t);
        self.trace.note_commit(t, &fine_answer(&result));
        note_ended(&mut self.active, t, &result);
        result
    }

    fn rollback(&mut self, t: TxNo) -> Result<(), Refusal> {
        let result = self.keeper.rollback(t);
        self.trace.note_rollback(t, &fine_answer(&result));
        note_ended(&mut self.active, t, &result);
        result
    }

    ghost seen = { seen_via R.meaning (λ t. t.keeper) (λ t o h. Knows t.trace t.active o h) R.seen };

    ghost whole = { whole_via R.meaning (λ t. t.keeper) (λ t o h. Knows t.trace t.active o h) R.whole };

    ghost few = { few_via R.meaning (λ t. t.keeper) (λ t o h. Knows t.trace t.active o h) R.few };

    ghost crashes = { crashes_via R.meaning (λ t. t.keeper) (λ t o h. Knows t.trace t.active o h) R.crashes };

    ghost lasts = { lasts_via R.meaning (λ t. t.keeper) (λ t o h. Knows t.trace t.active o h) R.lasts };

    ghost one = { one_via R.meaning (λ t. t.keeper) (λ t o h. Knows t.trace t.active o h) R.one };
}
