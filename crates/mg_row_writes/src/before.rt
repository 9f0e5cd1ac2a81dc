//! What stands at a key before it is written, and the way of the write.

ghost use Rattle.std.specs.Prelude.{◌≡◌, ◌≤◌, None, MatchResult, length, [], IfErr};
ghost use Rattle.mg_base.specs.Image.{Image};
ghost use Rattle.mg_heap.specs.Reading.{ReadsData};
ghost use Rattle.mg_pool.specs.Fault.{TellsFault};
ghost use Rattle.mg_pool.specs.Pool.{IsPool, shown};
ghost use Rattle.mg_slots.specs.declared.page.TheConstants.{GREATEST_SIZE};
ghost use Rattle.mg_space.specs.Taking.{IsGeometry};
ghost use Rattle.mg_space.specs.View.{KeepsStore, Tells, pool_answer};
ghost use Rattle.mg_chain.specs.Views.{is_dead as is_dead_state};
ghost use Rattle.mg_seek.specs.Rows.{RefusesRowOf};
ghost use Rattle.mg_seek.specs.Versions.{wants};
ghost use Rattle.mg_row_writes.specs.Befores.{IsBefore, OwnBefore, before_other};
ghost use Rattle.mg_row_writes.specs.Finding.{RefusesSeen};

use mg_base::{Disk, RecId, TxNo, TxState};
use mg_chain::States;
use mg_model::Table;
use mg_pool::Batch;
use mg_seek::{Placed, Wanted, first_version, row_of};
use mg_snap::Live;
use mg_space::{SpaceFault, Store};
use mg_undo::Was;
use mg_value::MOST_COLUMNS;
use std::alloc::Global;

/// How a version comes into the record of its key.
#[derive(Clone, Copy, Debug)]
pub enum Way {
    /// No record speaks for the key: one is made.
    Make,
    /// The version is pushed over the newest one of the record.
    Push(RecId),
    /// The newest version of the record is a dead transaction's: it is taken out, and then the version is
    /// pushed.
    PushOverDead(RecId),
    /// The newest version of the record is the transaction's own: it is replaced.
    Replace(RecId),
}

/// What stands at a key before a transaction writes there.
#[derive(Debug, Drop)]
pub struct Before {
    pub way: Way,
    /// What the transaction's own change of the key was.
    pub was: Was,
}

/// What stands in the record that speaks for a key, before t writes there.
///
/// # Errors
///
/// As `first_version` of mg_seek, and as `row_of`, where the newest version is t's own.
pub fn before_at<D: Disk, S: States>(
    store: &mut Store<D>,
    table: &Table,
    rec: Option<RecId>,
    states: &S,
    live: &Live,
    t: TxNo,
) -> Result<Before, SpaceFault>
    requires pool { IsPool D.meaning store.old }
    requires geometry { IsGeometry store.old.geometry }
    requires online { store.old.offline ≡ None }
    requires columns { length table.now.shape.columns ≤ MOST_COLUMNS }

    ensures keeps { KeepsStore D.meaning store.old store.new }
    ensures fault { TellsFault D.meaning store.old store.new (pool_answer result) }
    ensures own { ReadsData result }
    ensures gives { (image : Image) → Tells D.meaning store.old.disk image → MatchResult result
        (IsBefore (S.state_of states.now) live.now t.0 (shown store.old.dirty image) table.now rec)
        (RefusesSeen D.meaning store.new (shown store.old.dirty image)
        (wants (S.state_of states.now) live.now Wanted.Any) table.now rec) }
{
    let Some(rec) = rec else {
        return Ok(Before {
            way: Way::Make,
            was: Was::Untouched,
        });
    };
    let batch = Batch::new(store.alloc());
    let Some(newest) = first_version(store, &batch, rec, states, live, Wanted::Any)? else {
        return Ok(Before {
            way: Way::Push(rec),
            was: Was::Untouched,
        });
    };
    if newest.version.tx.0 == t.0 {
        return own_before(store.alloc(), table, rec, &newest);
    }
    Ok(other_before(states, rec, newest.version.tx))
}

/// What stands in a record whose newest version is the transaction's own.
fn own_before(
    alloc: Global,
    table: &Table,
    rec: RecId,
    newest: &Placed,
) -> Result<Before, SpaceFault>
    requires columns { length table.now.shape.columns ≤ MOST_COLUMNS }
    requires short { length newest.now.version.body ≤ GREATEST_SIZE }
    ensures { MatchResult result (OwnBefore table.now rec newest.now.version)
        (RefusesRowOf table.now newest.now) }
{
    let was = if newest.version.deleted {
        Was::Deleted
    } else {
        Was::Row(row_of(alloc, table, newest)?)
    };
    Ok(Before {
        way: Way::Replace(rec),
        was,
    })
}

/// What stands in a record whose newest version is another transaction's.
fn other_before<S: States>(states: &S, rec: RecId, by: TxNo) -> Before
    ensures { result ≡ before_other (S.state_of states.now) rec by.0 }
{
    let way = if is_dead(states.state(by)) {
        Way::PushOverDead(rec)
    } else {
        Way::Push(rec)
    };
    Before {
        way,
        was: Was::Untouched,
    }
}

/// Tells whether this is the state of a dead transaction.
fn is_dead(state: TxState) -> bool
    ensures { result ≡ is_dead_state state }
{
    matches!(state, TxState::Dead)
}
