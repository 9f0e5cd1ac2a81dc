//! A transaction is taken back to a point, key by key.

ghost use Rattle.std.specs.Prelude.{◌≡◌, IfOk, MatchResult};
ghost use Rattle.mg_base.specs.declared.transaction.TxState.TheVariants.{Active as IsActive};
ghost use Rattle.mg_model.specs.declared.change.Point.{Point};
ghost use Rattle.mg_model.specs.declared.change.Point.TheVariants.{LastMark};
ghost use Rattle.mg_records.specs.TakingBack.{is_given_up as is_given_up_by};
ghost use Rattle.mg_txlist.specs.TxList.{said};
ghost use Rattle.mg_core.specs.Cores.{Continues, IsCore};
ghost use Rattle.mg_core.specs.Events.{EndsWait};
ghost use Rattle.mg_taking_back.specs.Taking.{FailsBackTo, FailsFrom, GivesUpBy, GoesBackTo, IsUndoOf, StopsTaking, TakesAll, TakesBackFrom, TakesBackTo};

use crate::changes::take_key;
use mg_base::{Disk, Memory, TxNo};
use mg_core::Core;
use mg_model::Refusal;
use mg_undo::Undo;
use mg_value::Name;

/// Takes a transaction back to its last mark, which ends: all that it has changed since, the newest first, each key in a
/// batch of its own. Where no mark stands, nothing is taken back.
///
/// The tables that were given to it are no longer known, and its commit is no longer asked for.
///
/// # Errors
///
/// As every event: `Offline`, `NotActive`. `DatabaseFull`, `DiskRead`, `Damaged` or `Memory`: then the transaction is
/// rolled back; so it is also where memory is wanting for a copy of what it has to take back. `DiskWrite`: then it has
/// as much to take back as before.
pub fn undo_mark<D: Disk>(core: &mut Core<D>, t: TxNo) -> Result<(), Refusal>
    requires core { IsCore D.meaning core.old }
    ensures core { IsCore D.meaning core.new }
    ensures takes { MatchResult result (λ _. TakesBackTo D.meaning core.old core.new t.0 LastMark)
        (FailsBackTo D.meaning core.old core.new t.0 LastMark) }
{
    match core.begin_event(t) {
        Ok(()) => {}
        Err(refusal) => return Err(refusal),
    }
    match copy_undo(core, t) {
        Ok(undo) => take_back_from(core, t, undo),
        Err(_) => Err(give_up(core, t, Refusal::Memory)),
    }
}

/// Takes a transaction back to its last savepoint of a name, which stays, as `undo_mark` does to a mark. False exactly
/// where no such savepoint stands: then nothing has changed.
///
/// # Errors
///
/// As `undo_mark`.
pub fn back_to<D: Disk>(core: &mut Core<D>, t: TxNo, name: &Name) -> Result<bool, Refusal>
    requires core { IsCore D.meaning core.old }
    ensures core { IsCore D.meaning core.new }
    ensures goes { GoesBackTo D.meaning core.old core.new t.0 name.now result }
{
    // Without the savepoint there is no event, so that the wait is not over.
    match core.begin_call(t) {
        Ok(()) => {}
        Err(refusal) => {
            end_wait(core, t);
            return Err(refusal);
        }
    }
    let mut undo = match copy_undo(core, t) {
        Ok(undo) => undo,
        Err(_) => return Err(give_up_event(core, t)),
    };
    if !undo.back_to(name) {
        return Ok(false);
    }
    end_wait(core, t);
    match take_back_from(core, t, undo) {
        Ok(()) => Ok(true),
        Err(refusal) => Err(refusal),
    }
}

/// An event of a transaction begins, whose wait is over with it.
pub fn end_wait<D: Disk>(core: &mut Core<D>, t: TxNo)
    requires core { IsCore D.meaning core.old }
    ensures core { IsCore D.meaning core.new }
    ensures wait { EndsWait core.old core.new t.0 }
{
    core.waits.over(t);
}

/// Gives a transaction up by an event for which memory is wanting.
fn give_up_event<D: Disk>(core: &mut Core<D>, t: TxNo) -> Refusal
    requires core { IsCore D.meaning core.old }
    requires continues { Continues core.old t.0 }
    ensures core { IsCore D.meaning core.new }
    ensures fails { (point : Point) → FailsBackTo D.meaning core.old core.new t.0 point result }
{
    end_wait(core, t);
    give_up(core, t, Refusal::Memory)
}

/// A copy of what an active transaction has to take back.
///
/// # Errors
///
/// `Memory` only.
pub fn copy_undo<D: Disk>(core: &Core<D>, t: TxNo) -> Result<Undo, Memory>
    requires core { IsCore D.meaning core.now }
    requires active { said core.now.list t.0 ≡ IsActive }
    ensures { IfOk result (IsUndoOf core.now.works t.0) }
{
    let Some(work) = core.works.work(t) else {
        unreachable!()
    };
    work.copy_undo(core.store.alloc())
}

/// Takes back all that is given from here on, and keeps what is left to take back.
///
/// # Errors
///
/// As `undo_mark`, once its event has begun.
fn take_back_from<D: Disk>(core: &mut Core<D>, t: TxNo, undo: Undo) -> Result<(), Refusal>
    requires core { IsCore D.meaning core.old }
    requires active { said core.old.list t.0 ≡ IsActive }
    ensures core { IsCore D.meaning core.new }
    ensures takes { MatchResult result (λ _. TakesBackFrom D.meaning core.old core.new t.0 undo)
        (FailsFrom D.meaning core.old core.new t.0 undo) }
{
    // What comes back has no mark of a commit that was asked for.
    core.works.unask(t);
    let mut undo = undo;
    match take_all(core, t, &mut undo) {
        Ok(()) => {
            core.works.set_undo(t, undo);
            // One that the transaction has made may be gone.
            core.works.forget_tables(t);
            Ok(())
        }
        Err(refusal) => Err(give_up(core, t, refusal)),
    }
}

/// Takes back all that is given from here on.
///
/// # Errors
///
/// As `take_key`, at the first key that is not taken back.
fn take_all<D: Disk>(core: &mut Core<D>, t: TxNo, undo: &mut Undo) -> Result<(), Refusal>
    requires core { IsCore D.meaning core.old }
    ensures core { IsCore D.meaning core.new }
    ensures list { core.new.list ≡ core.old.list }
    ensures works { core.new.works ≡ core.old.works }
    ensures takes { MatchResult result
        (λ _. TakesAll D.meaning core.old core.new t.0 undo.old undo.new)
        (StopsTaking D.meaning core.old core.new t.0 undo.old) }
{
    while let Some(change) = undo.take_back() {
        let (table, key, was) = change;
        match take_key(core, t, table, key, was) {
            Ok(()) => {}
            Err(refusal) => return Err(refusal),
        }
    }
    Ok(())
}

/// Gives a transaction up for a refusal after which it can't go on: it is rolled back. It takes no memory.
pub fn give_up<D: Disk>(core: &mut Core<D>, t: TxNo, refusal: Refusal) -> Refusal
    requires core { IsCore D.meaning core.old }
    requires active { said core.old.list t.0 ≡ IsActive }
    ensures core { IsCore D.meaning core.new }
    ensures refusal { result ≡ refusal }
    ensures gives_up { GivesUpBy core.old core.new t.0 refusal }
{
    if !is_given_up(&refusal) {
        return refusal;
    }
    core.list.mark_dead(t);
    core.live.leave(t);
    core.works.end(t);
    refusal
}

/// Tells whether a refusal is one after which a transaction can't be taken back.
fn is_given_up(refusal: &Refusal) -> bool
    ensures { result ≡ is_given_up_by refusal.now }
{
    match refusal {
        Refusal::DatabaseFull { .. } => true,
        Refusal::DiskRead { .. } => true,
        Refusal::Damaged { .. } => true,
        Refusal::Memory => true,
        _ => false,
    }
}
