//! A transaction is taken back to a point, over tables that it has made since.

ghost use Rattle.std.specs.Prelude.{◌≡◌, MatchResult, None};
ghost use Rattle.mg_base.specs.declared.transaction.TxState.TheVariants.{Active as IsActive};
ghost use Rattle.mg_core.specs.Cores.{Continues, IsCore};
ghost use Rattle.mg_model.specs.declared.change.Point.{Point};
ghost use Rattle.mg_model.specs.declared.change.Point.TheVariants.{LastMark};
ghost use Rattle.mg_table_takings.specs.Keys.{AreKeysGiven};
ghost use Rattle.mg_table_takings.specs.Takings.{FailsTablesFrom, FailsTablesTo, GoesBackOver, StopsBoth, TakesBoth, TakesTablesFrom, TakesTablesTo};
ghost use Rattle.mg_txlist.specs.TxList.{said};

use crate::changes::take_others;
use crate::keys::rows_to_take;
use crate::rows::take_rows;
use mg_base::{Disk, TxNo};
use mg_core::Core;
use mg_model::Refusal;
use mg_taking_back::{copy_undo, end_wait, give_up};
use mg_undo::Undo;
use mg_value::{Key, Name};

/// Takes a transaction back to its last mark, which ends, with the tables that it has made since: all that it has changed in
/// other tables, the newest first, and then the rows of the catalog, each key in a batch of its own. Where no mark stands,
/// nothing is taken back.
///
/// The tables that were given to it are no longer known, those that have gone are no longer kept as written into, and its
/// commit is no longer asked for.
///
/// # Errors
///
/// As `undo_mark` of mg_taking_back.
pub fn undo_tables_to_mark<D: Disk>(core: &mut Core<D>, t: TxNo) -> Result<(), Refusal>
    requires core { IsCore D.meaning core.old }
    ensures core { IsCore D.meaning core.new }
    ensures takes { MatchResult result (λ _. TakesTablesTo D.meaning core.old core.new t.0 LastMark)
        (FailsTablesTo D.meaning core.old core.new t.0 LastMark) }
{
    match core.begin_event(t) {
        Ok(()) => {}
        Err(refusal) => return Err(refusal),
    }
    match copy_undo(core, t) {
        Ok(undo) => take_tables_from(core, t, undo),
        Err(_) => Err(give_up(core, t, Refusal::Memory)),
    }
}

/// Takes a transaction back to its last savepoint of a name, which stays, as `undo_tables_to_mark` does to a mark. False
/// exactly where no such savepoint stands: then nothing has changed.
///
/// # Errors
///
/// As `undo_tables_to_mark`.
pub fn back_over_tables<D: Disk>(core: &mut Core<D>, t: TxNo, name: &Name) -> Result<bool, Refusal>
    requires core { IsCore D.meaning core.old }
    ensures core { IsCore D.meaning core.new }
    ensures goes { GoesBackOver D.meaning core.old core.new t.0 name.now result }
{
    // Without the savepoint there is no event, so that the wait is not over.
    match core.begin_call(t) {
        Ok(()) => {}
        Err(refusal) => {
            end_wait(core, t);
            return Err(refusal);
        }
    }
    let mut undo = match copy_undo(core, t) {
        Ok(undo) => undo,
        Err(_) => return Err(give_up_event(core, t)),
    };
    if !undo.back_to(name) {
        return Ok(false);
    }
    end_wait(core, t);
    match take_tables_from(core, t, undo) {
        Ok(()) => Ok(true),
        Err(refusal) => Err(refusal),
    }
}

/// Gives a transaction up by an event for which memory is wanting.
fn give_up_event<D: Disk>(core: &mut Core<D>, t: TxNo) -> Refusal
    requires core { IsCore D.meaning core.old }
    requires continues { Continues core.old t.0 }
    ensures core { IsCore D.meaning core.new }
    ensures fails { (point : Point) → FailsTablesTo D.meaning core.old core.new t.0 point result }
{
    end_wait(core, t);
    give_up(core, t, Refusal::Memory)
}

/// Takes back all that is given from here on, the rows of the catalog last, and keeps what is left to take back.
///
/// # Errors
///
/// As `undo_tables_to_mark`, once its event has begun.
fn take_tables_from<D: Disk>(core: &mut Core<D>, t: TxNo, undo: Undo) -> Result<(), Refusal>
    requires core { IsCore D.meaning core.old }
    requires continues { Continues core.old t.0 }
    ensures core { IsCore D.meaning core.new }
    ensures takes { MatchResult result (λ _. TakesTablesFrom D.meaning core.old core.new t.0 undo)
        (FailsTablesFrom D.meaning core.old core.new t.0 undo) }
{
    match rows_to_take(core, &undo) {
        Ok(keys) => take_with_rows(core, t, undo, &keys),
        Err(_) => Err(give_up(core, t, Refusal::Memory)),
    }
}

/// The same, once the keys of the rows of the catalog are known.
///
/// # Errors
///
/// As `take_both`.
fn take_with_rows<D: Disk>(
    core: &mut Core<D>,
    t: TxNo,
    undo: Undo,
    keys: &[Key],
) -> Result<(), Refusal>
    requires core { IsCore D.meaning core.old }
    requires continues { Continues core.old t.0 }
    requires rows { AreKeysGiven core.old.catalog.pointer.0 undo keys.now }
    ensures core { IsCore D.meaning core.new }
    ensures takes { MatchResult result (λ _. TakesTablesFrom D.meaning core.old core.new t.0 undo)
        (FailsTablesFrom D.meaning core.old core.new t.0 undo) }
{
    // What comes back has no mark of a commit that was asked for.
    core.works.unask(t);
    let mut undo = undo;
    match take_both(core, t, &mut undo, keys) {
        Ok(()) => {
            core.works.set_undo(t, undo);
            core.works.drop_written(t, keys);
            core.works.forget_tables(t);
            Ok(())
        }
        Err(refusal) => Err(give_up(core, t, refusal)),
    }
}

/// Takes back all that is given from here on: the changes of other tables, then the rows of the catalog.
///
/// # Errors
///
/// As `take_others`, and as `take_rows`.
fn take_both<D: Disk>(
    core: &mut Core<D>,
    t: TxNo,
    undo: &mut Undo,
    keys: &[Key],
) -> Result<(), Refusal>
    requires core { IsCore D.meaning core.old }
    requires online { core.old.store.offline ≡ None }
    ensures core { IsCore D.meaning core.new }
    ensures list { core.new.list ≡ core.old.list }
    ensures works { core.new.works ≡ core.old.works }
    ensures takes { MatchResult result
        (λ _. TakesBoth D.meaning core.old core.new t.0 undo.old undo.new keys.now)
        (StopsBoth D.meaning core.old core.new t.0 undo.old keys.now) }
{
    match take_others(core, t, undo) {
        Ok(()) => take_rows(core, t, keys),
        Err(refusal) => Err(refusal),
    }
}
