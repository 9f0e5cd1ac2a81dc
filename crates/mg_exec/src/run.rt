//! A statement that runs in steps.

ghost use Rattle.std.specs.Prelude.{◌≡◌, [], true, None, Ok, Err, IfOk, MatchResult};
ghost use Rattle.std.specs.Option.{option_copied};
ghost use Rattle.mg_model.specs.declared.opening.Opening.{Opening};
ghost use Rattle.mg_model.specs.History.{Entries};
ghost use Rattle.mg_statements.specs.Plain.{plain_of};
ghost use Rattle.mg_calls.specs.Frames.{Frames};
ghost use Rattle.mg_calls.specs.Quiet.{AreQuiet, IsQuietAt};
ghost use Rattle.mg_exec.specs.Phases.{IsReady, IsReadyToInsert, Leaves, StandsAt, rolled_back_at};
ghost use Rattle.mg_exec.specs.Progress.{IsBehind, Nears};
ghost use Rattle.mg_exec.specs.Changing.{StartsToWrite};
ghost use Rattle.mg_exec.specs.Starting.{Runs, TestsAny, refusal_at};
ghost use Rattle.mg_exec.specs.Running.{Goes, IsPastEnd, is_rolled_back_at, table_at, place_at};
ghost use Rattle.mg_exec.specs.Statements.{Asked, BeginsTested, Gives, IsAt};

use crate::changing::{change, start_to_write};
use crate::creating::{create, retry, test_table};
use crate::ending::ended;
use crate::phase::{Inserting, Phase, Step, Turn};
use crate::points::{go_back, save};
use crate::reading::read;
use crate::starting::test;
use mg_base::TxNo;
use mg_model::Table;
use mg_plan::let_go;
use mg_records::Records;
use mg_rows::StatementFault;
use mg_statements::Statement;
use std::alloc::Global;
use std::mem::replace;

/// A statement of a transaction that runs in steps.
#[derive(Drop)]
pub struct Run<R: Records> {
    alloc: Global,
    /// The transaction.
    pub t: TxNo,
    /// Where it stands.
    pub phase: Phase<R::Place>,
}

/// Tests a statement that has looked, if it is one that looks, and where it begins.
fn test_any<R: Records>(
    r: &mut R,
    alloc: Global,
    t: TxNo,
    read_only: bool,
    s: &Statement,
    size: u32,
) -> Result<Phase<R::Place>, StatementFault>
where
    R::Place: Drop,
    requires runs { Runs (plain_of s.now) }
    requires pages { R.meaning.is_size r.old size ≡ true }
    ensures tests { (o : Opening) (h : Entries) → R.meaning.stands r.old o h
        → TestsAny R.meaning r.new o h t read_only (plain_of s.now) size result }
    ensures ready { IfOk result (λ phase. IsReady R.meaning r.new t.0 phase) }
    ensures frames { Frames R.meaning r.old r.new t.0 (refusal_at result) }
    ensures quiet { AreQuiet R.meaning r.old r.new None }
{
    match s {
        Statement::Savepoint { name } => Ok(Phase::Saving(*name)),
        Statement::RollbackTo { name } => Ok(Phase::Returning(*name)),
        Statement::Table { name, .. } => test_table(r, alloc, t, read_only, s, name, size),
        Statement::Insert { table, .. } => test(r, alloc, t, read_only, s, table, size),
        Statement::Update { table, .. } => test(r, alloc, t, read_only, s, table, size),
        Statement::Delete { table, .. } => test(r, alloc, t, read_only, s, table, size),
        Statement::Totals { table, .. } => test(r, alloc, t, read_only, s, table, size),
        Statement::Select { table, .. } => test(r, alloc, t, read_only, s, table, size),
        _ => Err(StatementFault::NothingHeld),
    }
}

/// The first step of an INSERT: its row is computed, its mark set, and the row written.
fn insert<R: Records>(r: &mut R, alloc: Global, t: TxNo, i: Inserting) -> Turn<R::Place>
where
    R::Place: Drop,
    requires ready { IsReadyToInsert R.meaning r.old t.0 i }
    ensures starts { (o : Opening) (h : Entries) → R.meaning.stands r.old o h
        → StartsToWrite R.meaning r.new o h t i.table i.bound [] result }
    ensures behind { IsBehind 1 result }
    ensures leaves { Leaves R.meaning r.old r.new t.0 result }
    ensures quiet { AreQuiet R.meaning r.old r.new (rolled_back_at t.0 result.phase) }
{
    let Inserting { table, bound } = i;
    let turn = start_to_write(r, alloc, t, table, &bound, &[]);
    let_go(bound);
    turn
}

/// A step of a statement, from where it stands.
fn go<R: Records>(r: &mut R, alloc: Global, t: TxNo, phase: Phase<R::Place>) -> Turn<R::Place>
where
    R::Place: Drop,
    requires ready { IsReady R.meaning r.old t.0 phase }
    ensures goes { (o : Opening) (h : Entries) → R.meaning.stands r.old o h
        → Goes R.meaning r.old r.new o h t phase result }
    ensures nears { Nears R.meaning r.old r.new t.0 phase result }
    ensures ended { IsPastEnd R.meaning r.old r.new phase result.answer }
    ensures leaves { Leaves R.meaning r.old r.new t.0 result }
    ensures quiet { (o : Opening) (h : Entries) → R.meaning.stands r.old o h
        → StandsAt R.meaning r.old o h t.0 phase → IsQuietAt R.meaning r.old r.new o h }
{
    match phase {
        Phase::Saving(name) => save(r, t, &name),
        Phase::Returning(name) => go_back(r, t, &name),
        Phase::Inserting(i) => insert(r, alloc, t, i),
        Phase::Reading(reading) => read(r, alloc, t, reading),
        Phase::Changing(changing) => change(r, t, changing),
        Phase::Creating(table) => create(r, t, table),
        Phase::Retrying(table) => retry(r, t, table),
        Phase::Ended => ended(Err(StatementFault::NothingHeld)),
        Phase::RolledBack => ended(Err(StatementFault::NothingHeld)),
    }
}

impl<R: Records> Run<R> {
    /// Tests a statement of a transaction that has looked, if it is one that looks, with all that depends on no row, and
    /// begins it. No event is given. `size` is the page size in bytes, and `read_only` says whether the transaction may
    /// not write. Of statements that begin or end a transaction there is none. The lengths of a new table's texts are
    /// those that the grammar has.
    ///
    /// # Errors
    ///
    /// `ReadOnly`; `NoTable`, or `TableExists` where it makes one; or the first refusal of its binding, in this order; or
    /// a refusal of the keeper.
    pub fn test(
        r: &mut R,
        alloc: Global,
        t: TxNo,
        read_only: bool,
        s: &Statement,
        size: u32,
    ) -> Result<Run<R>, StatementFault>
    where
        R::Place: Drop,
        requires runs { Runs (plain_of s.now) }
        requires pages { R.meaning.is_size r.old size ≡ true }
        ensures tests { (o : Opening) (h : Entries) → R.meaning.stands r.old o h
            → MatchResult result
            (λ run. TestsAny R.meaning r.new o h t read_only (plain_of s.now) size (Ok run.phase))
            (λ fault. TestsAny R.meaning r.new o h t read_only (plain_of s.now) size (Err fault)) }
        ensures begins { (o : Opening) (h : Entries) → R.meaning.stands r.old o h
            → IfOk result (λ run. BeginsTested R.meaning r.new o h (record {
              t = t;
              read_only = read_only;
              statement = plain_of s.now;
              size = size;
            }) run.phase) }
        ensures ready { IfOk result (λ run. IsReady R.meaning r.new t.0 run.phase) }
        ensures number { IfOk result (λ run. run.t ≡ t) }
        ensures frames { Frames R.meaning r.old r.new t.0 (refusal_at result) }
        ensures quiet { AreQuiet R.meaning r.old r.new None }
    {
        match test_any(r, alloc, t, read_only, s, size) {
            Ok(phase) => Ok(Run { alloc, t, phase }),
            Err(fault) => Err(fault),
        }
    }

    /// Makes one step: it visits one record, or makes one write, or ends the statement. The step that
    /// makes the first write tells before it what was found, and sets the mark.
    ///
    /// # Errors
    ///
    /// `Waits` leaves the statement where it is, and it can be stepped again. Every other refusal has
    /// undone it and is its end; where the undoing itself was refused for want of pages or memory, or at
    /// a page that can't be read or is damaged, the transaction is rolled back (`is_rolled_back`).
    /// `NothingHeld` where it is at its end already.
    pub fn step(&mut self, r: &mut R) -> Result<Step, StatementFault>
    where
        R::Place: Drop,
        requires ready { IsReady R.meaning r.old self.old.t.0 self.old.phase }
        ensures goes { (o : Opening) (h : Entries) → R.meaning.stands r.old o h
            → Goes R.meaning r.old r.new o h self.old.t self.old.phase
            (record { phase = self.new.phase; answer = result }) }
        ensures gives { (o : Opening) (looked h given : Entries) (a : Asked) → R.meaning.stands r.old o h
            → a.t ≡ self.old.t → IsAt R.meaning r.old o looked h a given self.old.phase
            → Gives R.meaning r.new o looked h a given
            (record { phase = self.new.phase; answer = result }) }
        ensures ended { IsPastEnd R.meaning r.old r.new self.old.phase result }
        ensures nears { Nears R.meaning r.old r.new self.old.t.0 self.old.phase
            (record { phase = self.new.phase; answer = result }) }
        ensures number { self.new.t ≡ self.old.t }
        ensures leaves { Leaves R.meaning r.old r.new self.old.t.0
            (record { phase = self.new.phase; answer = result }) }
        ensures quiet { (o : Opening) (looked h given : Entries) (a : Asked) → R.meaning.stands r.old o h
            → a.t ≡ self.old.t → IsAt R.meaning r.old o looked h a given self.old.phase
            → IsQuietAt R.meaning r.old r.new o h }
        ensures crash { (o : Opening) (h : Entries) → R.meaning.stands r.old o h
            → StandsAt R.meaning r.old o h self.old.t.0 self.old.phase
            → IsQuietAt R.meaning r.old r.new o h }
    {
        let phase = replace(&mut self.phase, Phase::Ended);
        let Turn { phase, answer } = go(r, self.alloc, self.t, phase);
        // `drop` is a call; an assignment lets the old phase go in place, variant by variant
        drop(replace(&mut self.phase, phase));
        answer
    }

    /// The statement ended with its transaction, which is rolled back.
    pub fn is_rolled_back(&self) -> bool
        ensures { result ≡ is_rolled_back_at self.now.phase }
    {
        matches!(self.phase, Phase::RolledBack)
    }

    /// The table of the statement, as long as it runs: None for CREATE TABLE, SAVEPOINT and ROLLBACK
    /// TO.
    pub fn table(&self) -> Option<&Table>
        ensures { option_copied result ≡ table_at self.now.phase }
    {
        match &self.phase {
            Phase::Inserting(i) => Some(&i.table),
            Phase::Reading(reading) => Some(&reading.walk.table),
            Phase::Changing(changing) => Some(&changing.writes.table),
            _ => None,
        }
    }

    /// The place that it visited last, as long as it reads: None where none was.
    pub fn place(&self) -> Option<&R::Place>
        ensures { option_copied result ≡ place_at self.now.phase }
    {
        match &self.phase {
            Phase::Reading(reading) => reading.walk.place.as_ref(),
            _ => None,
        }
    }
}
