//! What is tested of a statement before a row is read.

ghost use Rattle.std.specs.Prelude.{◌≡◌, ℕ, Some, None, IfOk};
ghost use Rattle.mg_base.specs.declared.transaction.TxState.TheVariants.{Active};
ghost use Rattle.mg_model.specs.declared.opening.Opening.{Opening};
ghost use Rattle.mg_model.specs.History.{Entries};
ghost use Rattle.mg_model.specs.Machine.{state_of};
ghost use Rattle.mg_statements.specs.Plain.{plain_of};
ghost use Rattle.mg_calls.specs.Frames.{Frames};
ghost use Rattle.mg_calls.specs.Quiet.{AreQuiet};
ghost use Rattle.mg_exec.specs.Phases.{IsReady, StandsAt, may_not_write};
ghost use Rattle.mg_exec.specs.Starting.{HasRows, IsBegun, Tests, refusal_at};

use crate::parts::{is_insert, is_writing};
use crate::phase::{Inserting, Phase, Reading};
use mg_base::TxNo;
use mg_calls::start_walk;
use mg_model::{Refusal, Table};
use mg_plan::{Bound, bind};
use mg_records::Records;
use mg_rows::StatementFault;
use mg_statements::Statement;
use mg_value::Name;
use std::alloc::Global;

/// Tells whether a statement would write in a transaction that may not.
pub(crate) fn is_barred(read_only: bool, s: &Statement) -> bool
    ensures { result ≡ may_not_write read_only (plain_of s.now) }
{
    read_only && is_writing(s)
}

/// Where a bound statement begins.
fn begin<R: Records>(r: &R, alloc: Global, table: Table, bound: Bound) -> Phase<R::Place>
    ensures begins { IsBegun table bound result }
    ensures reads { (o : Opening) (h : Entries) (t : ℕ) → R.meaning.stands r.now o h
        → state_of o h t ≡ Active → R.meaning.table r.now t table.name ≡ Some table
        → StandsAt R.meaning r.now o h t result }
{
    if is_insert(&bound.statement) {
        return Phase::Inserting(Inserting { table, bound });
    }
    Phase::Reading(Reading {
        walk: start_walk(r, table),
        bound,
        kept: Vec::new(alloc),
    })
}

/// Tests a statement that has looked, and binds it to its table.
pub fn test<R: Records>(
    r: &mut R,
    alloc: Global,
    t: TxNo,
    read_only: bool,
    s: &Statement,
    name: &Name,
    size: u32,
) -> Result<Phase<R::Place>, StatementFault>
    requires rows { HasRows (plain_of s.now) }
    ensures tests { (o : Opening) (h : Entries) → R.meaning.stands r.old o h
        → Tests R.meaning r.new o h t read_only (plain_of s.now) name.now size result }
    ensures ready { IfOk result (λ phase. IsReady R.meaning r.new t.0 phase) }
    ensures frames { Frames R.meaning r.old r.new t.0 (refusal_at result) }
    ensures quiet { AreQuiet R.meaning r.old r.new None }
{
    if is_barred(read_only, s) {
        return Err(StatementFault::Engine(Refusal::ReadOnly));
    }
    let table = match r.table(t, name) {
        Ok(table) => table,
        Err(refusal) => return Err(StatementFault::Engine(refusal)),
    };
    match bind(alloc, s, Some(&table), size) {
        Ok(bound) => Ok(begin(r, alloc, table, bound)),
        Err(fault) => Err(StatementFault::from(fault)),
    }
}
