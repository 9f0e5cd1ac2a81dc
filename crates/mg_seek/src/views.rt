//! What a transaction sees of a record, and who is in its way there.

ghost use Rattle.std.specs.Prelude.{◌≡◌, ◌≤◌, ◌<◌, [], MatchResult, length};
ghost use Rattle.mg_base.specs.Image.{Image};
ghost use Rattle.mg_chain.specs.Refusals.{RefusesChain};
ghost use Rattle.mg_heap.specs.Reading.{ReadsData};
ghost use Rattle.mg_heap.specs.Walk.{RefusesNext};
ghost use Rattle.mg_pool.specs.Fault.{TellsFault};
ghost use Rattle.mg_pool.specs.Pool.{IsPool, shown};
ghost use Rattle.mg_space.specs.Taking.{IsGeometry};
ghost use Rattle.mg_space.specs.View.{AreWhole, KeepsStore, Tells, pool_answer, viewed};
ghost use Rattle.mg_seek.specs.Refusals.{RefusesRecord, RefusesVisit};
ghost use Rattle.mg_seek.specs.Versions.{wants};
ghost use Rattle.mg_seek.specs.Views.{IsKeyOf, IsObstacle, IsRowSeen, IsVisit, hinders as hinders_of, obstacle_of};

use crate::rows::{key_copy, row_of};
use crate::walk::first_version;
use crate::whose::Wanted;
use mg_base::{Disk, GREATEST_LIMIT, RecId, TxNo, TxState};
use mg_chain::States;
use mg_heap::next;
use mg_model::Table;
use mg_pool::Batch;
use mg_snap::Live;
use mg_space::{SpaceFault, Store};
use mg_value::{MOST_COLUMNS, Row, Value};

/// Who is in the way of a write.
#[derive(Clone, Copy, Debug, PartialEq, Eq)]
pub struct Obstacle {
    pub by: TxNo,
    /// What has become of it: it is active, in limbo, or committed.
    pub state: TxState,
}

/// A record that a walk has come to.
#[derive(Debug, Drop)]
pub struct Visit {
    pub rec: RecId,
    /// The row that is seen there, none where none is.
    pub row: Option<Row>,
}

/// The row that t sees of a record of a table. None where it sees a deletion, or nothing.
///
/// # Errors
///
/// As `first_version`; and as `row_of`, of the version that t sees.
pub fn row_in_view<D: Disk, S: States>(
    store: &mut Store<D>,
    batch: &Batch,
    table: &Table,
    rec: RecId,
    states: &S,
    live: &Live,
    t: TxNo,
) -> Result<Option<Row>, SpaceFault>
    requires pool { IsPool D.meaning store.old }
    requires geometry { IsGeometry store.old.geometry }
    requires whole { AreWhole store.old.geometry batch.now.pages }
    requires columns { length table.now.shape.columns ≤ MOST_COLUMNS }

    ensures keeps { KeepsStore D.meaning store.old store.new }
    ensures fault { TellsFault D.meaning store.old store.new (pool_answer result) }
    ensures own { ReadsData result }
    ensures gives { (image : Image) → Tells D.meaning store.old.disk image → MatchResult result
        (IsRowSeen (S.state_of states.now) live.now t (viewed store.old image batch.now) table.now
        rec)
        (RefusesRecord D.meaning store.new batch.now.pages
        (viewed store.old image batch.now) (wants (S.state_of states.now) live.now (Wanted.SeenBy t))
        table.now rec) }
{
    let Some(found) = first_version(store, batch, rec, states, live, Wanted::SeenBy(t))? else {
        return Ok(None);
    };
    if found.version.deleted {
        return Ok(None);
    }
    Ok(Some(row_of(store.alloc(), table, &found)?))
}

/// The key of a record of a table: that of its newest version, which may be a deletion. None where the
/// slot is none of a record.
///
/// # Errors
///
/// As `first_version`; and as `row_of`, of the newest version.
pub fn record_key<D: Disk, S: States>(
    store: &mut Store<D>,
    batch: &Batch,
    table: &Table,
    rec: RecId,
    states: &S,
    live: &Live,
) -> Result<Option<Value>, SpaceFault>
    requires pool { IsPool D.meaning store.old }
    requires geometry { IsGeometry store.old.geometry }
    requires whole { AreWhole store.old.geometry batch.now.pages }
    requires columns { length table.now.shape.columns ≤ MOST_COLUMNS }

    ensures keeps { KeepsStore D.meaning store.old store.new }
    ensures fault { TellsFault D.meaning store.old store.new (pool_answer result) }
    ensures own { ReadsData result }
    ensures gives { (image : Image) → Tells D.meaning store.old.disk image → MatchResult result
        (IsKeyOf (S.state_of states.now) live.now (viewed store.old image batch.now) table.now rec)
        (RefusesRecord D.meaning store.new batch.now.pages
        (viewed store.old image batch.now) (wants (S.state_of states.now) live.now Wanted.Any)
        table.now rec) }
{
    let Some(newest) = first_version(store, batch, rec, states, live, Wanted::Any)? else {
        return Ok(None);
    };
    let row = row_of(store.alloc(), table, &newest)?;
    Ok(Some(key_copy(store.alloc(), table, &row)?))
}

/// The obstacle of a record for t: the writer of its newest version that is no dead transaction's,
/// where it is another one which is active, in limbo, or committed and not seen by t's base.
///
/// # Errors
///
/// As `first_version`.
pub fn obstacle_for<D: Disk, S: States>(
    store: &mut Store<D>,
    batch: &Batch,
    rec: RecId,
    states: &S,
    live: &Live,
    t: TxNo,
) -> Result<Option<Obstacle>, SpaceFault>
    requires pool { IsPool D.meaning store.old }
    requires geometry { IsGeometry store.old.geometry }
    requires whole { AreWhole store.old.geometry batch.now.pages }

    ensures keeps { KeepsStore D.meaning store.old store.new }
    ensures fault { TellsFault D.meaning store.old store.new (pool_answer result) }
    ensures own { ReadsData result }
    ensures gives { (image : Image) → Tells D.meaning store.old.disk image → MatchResult result
        (IsObstacle (S.state_of states.now) live.now t.0 (viewed store.old image batch.now) rec)
        (RefusesChain D.meaning store.new batch.now.pages
        (viewed store.old image batch.now) rec) }
{
    let Some(newest) = first_version(store, batch, rec, states, live, Wanted::Living)? else {
        return Ok(None);
    };
    Ok(obstacle_by(states, live, t, newest.version.tx))
}

/// A transaction as an obstacle, where it can be in the way of t.
fn obstacle_by<S: States>(states: &S, live: &Live, t: TxNo, by: TxNo) -> Option<Obstacle>
    ensures { result ≡ obstacle_of (S.state_of states.now) live.now t.0 by }
{
    if hinders(states, live, t, by) {
        Some(Obstacle {
            by,
            state: states.state(by),
        })
    } else {
        None
    }
}

/// Tells whether a transaction can be in the way of t.
fn hinders<S: States>(states: &S, live: &Live, t: TxNo, by: TxNo) -> bool
    ensures { result ≡ hinders_of (S.state_of states.now) live.now t.0 by.0 }
{
    if by.0 == t.0 {
        return false;
    }
    match states.state(by) {
        TxState::Active => true,
        TxState::Limbo => true,
        TxState::Dead => false,
        TxState::Committed => !live.sees(t, by),
    }
}

/// The record of a table behind another, or the first one, in the order of the table's data pages and
/// their slots, with the row that t sees there. None exactly where there is no other record.
///
/// `after` stands in a data page of the table. No page may be in a batch.
///
/// # Errors
///
/// `Damaged`: at the page of `after`, or the first pointer page or data page in question that is not as
/// wanted; and as `row_in_view`, of the record. `Pool` with `DiskRead`, `Offline` or `Memory`.
pub fn view_step<D: Disk, S: States>(
    store: &mut Store<D>,
    table: &Table,
    states: &S,
    live: &Live,
    t: TxNo,
    after: Option<RecId>,
) -> Result<Option<Visit>, SpaceFault>
    requires pool { IsPool D.meaning store.old }
    requires geometry { IsGeometry store.old.geometry }
    requires columns { length table.now.shape.columns ≤ MOST_COLUMNS }
    requires pointer { table.now.pointer.0 < GREATEST_LIMIT }

    ensures keeps { KeepsStore D.meaning store.old store.new }
    ensures fault { TellsFault D.meaning store.old store.new (pool_answer result) }
    ensures own { ReadsData result }
    ensures gives { (image : Image) → Tells D.meaning store.old.disk image → MatchResult result
        (IsVisit (S.state_of states.now) live.now t (shown store.old.dirty image) table.now after)
        (RefusesVisit D.meaning store.new (shown store.old.dirty image)
        (wants (S.state_of states.now) live.now (Wanted.SeenBy t)) table.now after) }
{
    let Some(rec) = next(store, table.pointer, after)? else {
        return Ok(None);
    };
    let batch = Batch::new(store.alloc());
    let row = row_in_view(store, &batch, table, rec, states, live, t)?;
    Ok(Some(Visit { rec, row }))
}
