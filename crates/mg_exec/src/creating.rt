//! CREATE TABLE.

ghost use Rattle.std.specs.Prelude.{◌≡◌, ◌≤◌, All, IfOk, OnOk, true};
ghost use Rattle.mg_value.specs.Names.{IsName};
ghost use Rattle.mg_value.specs.declared.shape.TheConstants.{MOST_COLUMNS};
ghost use Rattle.mg_model.specs.declared.opening.Opening.{Opening};
ghost use Rattle.mg_model.specs.Catalog.{catalog_name};
ghost use Rattle.mg_model.specs.Changes.{same_name};
ghost use Rattle.mg_model.specs.History.{Entries};
ghost use Rattle.mg_statements.specs.Plain.{plain_of};
ghost use Rattle.mg_plan.specs.Shapes.{shape_of as shape_said};
ghost use Rattle.mg_plan.specs.Statements.{count_defined};
ghost use Rattle.mg_calls.specs.Frames.{Frames};
ghost use Rattle.mg_calls.specs.Quiet.{AreQuiet};
ghost use Rattle.mg_exec.specs.Creating.{Creates, Retries, turned_table};
ghost use Rattle.mg_exec.specs.NewTables.{CreatesTable, Plans, PlansPhase, TestsTable, columns_defined, is_missing as is_missing_test};
ghost use Rattle.mg_exec.specs.Phases.{IsReady, IsReadyToCreate, Leaves, rolled_back_at};
ghost use Rattle.mg_exec.specs.Progress.{IsAtEnd};
ghost use Rattle.mg_exec.specs.Starting.{refusal_at};

use crate::ending::{ended, refused, rolled_back};
use crate::phase::{NewTable, Phase, Step, Turn};
use crate::starting::is_barred;
use mg_base::{Memory, TxNo};
use mg_calls::{Written, make_table, mark_and_make};
use mg_model::{CATALOG, Refusal};
use mg_plan::{PlanFault, bind, let_go, shape_of};
use mg_records::Records;
use mg_rows::{Outcome, StatementFault};
use mg_statements::Statement;
use mg_value::{Name, Shape};
use std::alloc::Global;

/// Tells whether a name is the catalog's.
fn is_catalog(name: &Name) -> bool
    ensures is { result ≡ same_name name.now catalog_name }
    ensures named { IsName name.now }
{
    name.as_slice() == CATALOG
}

/// The shape that CREATE TABLE defines.
fn shape_defined(alloc: Global, s: &Statement) -> Result<Shape, Memory>
    requires creates { CreatesTable (plain_of s.now) }
    requires few { count_defined (plain_of s.now) ≤ MOST_COLUMNS }
    ensures is { IfOk result (λ shape. shape ≡ shape_said (columns_defined (plain_of s.now))) }
    ensures named { OnOk result (All (λ d. IsName d.name) (columns_defined (plain_of s.now))) }
{
    match s {
        Statement::Table { columns, .. } => shape_of(alloc, columns),
        _ => unreachable!(),
    }
}

/// The table that CREATE TABLE makes, for pages of `size` bytes.
fn plan_table(alloc: Global, s: &Statement, name: &Name, size: u32) -> Result<NewTable, PlanFault>
    requires { CreatesTable (plain_of s.now) }
    ensures { Plans (plain_of s.now) name.now size result }
{
    match bind(alloc, s, None, size) {
        Ok(bound) => {
            let_go(bound);
            match shape_defined(alloc, s) {
                Ok(shape) => Ok(NewTable { name: *name, shape }),
                Err(_) => Err(PlanFault::Memory),
            }
        }
        Err(fault) => Err(fault),
    }
}

/// Tests CREATE TABLE where its transaction sees no table of the name.
fn plan<P: Drop>(
    alloc: Global,
    s: &Statement,
    name: &Name,
    size: u32,
) -> Result<Phase<P>, StatementFault>
    requires { CreatesTable (plain_of s.now) }
    ensures { PlansPhase (plain_of s.now) name.now size result }
{
    match plan_table(alloc, s, name, size) {
        Ok(table) => Ok(Phase::Creating(table)),
        Err(fault) => Err(StatementFault::from(fault)),
    }
}

/// Tells whether a table was not told since there is none.
fn is_missing(refusal: Refusal) -> bool
    ensures { result ≡ is_missing_test refusal }
{
    matches!(refusal, Refusal::NoTable)
}

/// Tests CREATE TABLE, which has looked.
pub fn test_table<R: Records>(
    r: &mut R,
    alloc: Global,
    t: TxNo,
    read_only: bool,
    s: &Statement,
    name: &Name,
    size: u32,
) -> Result<Phase<R::Place>, StatementFault>
where
    R::Place: Drop,
    requires creates { CreatesTable (plain_of s.now) }
    requires pages { R.meaning.is_size r.old size ≡ true }
    ensures tests { (o : Opening) (h : Entries) → R.meaning.stands r.old o h
        → TestsTable R.meaning r.new o h t read_only (plain_of s.now) name.now size result }
    ensures ready { IfOk result (λ phase. IsReady R.meaning r.new t.0 phase) }
    ensures frames { Frames R.meaning r.old r.new t.0 (refusal_at result) }
    ensures quiet { AreQuiet R.meaning r.old r.new None }
{
    if is_barred(read_only, s) {
        return Err(StatementFault::Engine(Refusal::ReadOnly));
    }
    if is_catalog(name) {
        return Err(StatementFault::Engine(Refusal::TableExists));
    }
    let refusal = match r.table(t, name) {
        Ok(_) => return Err(StatementFault::Engine(Refusal::TableExists)),
        Err(refusal) => refusal,
    };
    if is_missing(refusal) {
        return plan(alloc, s, name, size);
    }
    Err(StatementFault::Engine(refusal))
}

/// Where CREATE TABLE stands after its table was to be made.
pub fn turned_with<P: Drop>(table: NewTable, wrote: Written) -> Turn<P>
    ensures { result ≡ turned_table table wrote }
{
    match wrote {
        Written::Done => ended(Ok(Step::Done(Outcome::Fine))),
        Written::Waits(on) => Turn {
            phase: Phase::Retrying(table),
            answer: Err(StatementFault::Engine(Refusal::Waits { on })),
        },
        Written::Refused(refusal) => refused(refusal),
        Written::RolledBack(refusal) => rolled_back(refusal),
    }
}

/// The first step of CREATE TABLE: it sets its mark, and makes its table.
pub fn create<R: Records>(r: &mut R, t: TxNo, table: NewTable) -> Turn<R::Place>
where
    R::Place: Drop,
    requires ready { IsReadyToCreate R.meaning r.old table }
    ensures creates { (o : Opening) (h : Entries) → R.meaning.stands r.old o h
        → Creates R.meaning r.new o h t table result }
    ensures behind { IsAtEnd result }
    ensures leaves { Leaves R.meaning r.old r.new t.0 result }
    ensures quiet { AreQuiet R.meaning r.old r.new (rolled_back_at t.0 result.phase) }
{
    let wrote = mark_and_make(r, t, &table.name, &table.shape);
    turned_with(table, wrote)
}

/// A further step of CREATE TABLE, whose mark is set: it tries again to make its table.
pub fn retry<R: Records>(r: &mut R, t: TxNo, table: NewTable) -> Turn<R::Place>
where
    R::Place: Drop,
    requires ready { IsReadyToCreate R.meaning r.old table }
    ensures retries { (o : Opening) (h : Entries) → R.meaning.stands r.old o h
        → Retries R.meaning r.new o h t table result }
    ensures behind { IsAtEnd result }
    ensures leaves { Leaves R.meaning r.old r.new t.0 result }
    ensures quiet { AreQuiet R.meaning r.old r.new (rolled_back_at t.0 result.phase) }
{
    let wrote = make_table(r, t, &table.name, &table.shape);
    turned_with(table, wrote)
}
