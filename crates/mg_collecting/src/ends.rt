//! The newest version of a record goes: a dead transaction's, or a deletion that all bases see.

ghost use Rattle.std.specs.Prelude.{◌≡◌, MatchResult};
ghost use Rattle.mg_chain.specs.Views.{is_dead as is_dead_state};
ghost use Rattle.mg_pool.specs.Pool.{IsPool};
ghost use Rattle.mg_seek.specs.Speaking.{is_erased_for_all as is_erased};
ghost use Rattle.mg_space.specs.Taking.{IsGeometry};
ghost use Rattle.mg_collecting.specs.Remaining.{without_dead, without_erased};
ghost use Rattle.mg_collecting.specs.Steps.{DoesPart, FailsPart};

use crate::reading::{is_committed, newest, version};
use mg_base::{Disk, RecId, TxNo, TxState};
use mg_chain::{States, cells_are_changed};
use mg_row_writes::take_newest_out;
use mg_snap::Live;
use mg_space::{SpaceFault, Store};
use mg_version::Version;

/// Tells whether a transaction is dead.
fn is_dead<S: States>(states: &S, t: TxNo) -> bool
    ensures { result ≡ is_dead_state (S.state_of states.now t.0) }
{
    matches!(states.state(t), TxState::Dead)
}

/// Tells whether a version is a deletion by a committed transaction that every base sees.
fn is_erased_for_all<S: States>(states: &S, live: &Live, version: &Version) -> bool
    ensures { result ≡ is_erased (S.state_of states.now) live.now version.now }
{
    version.deleted && is_committed(states, version.tx) && live.all_see(version.tx)
}

/// Takes the newest version out of a record, in a batch of its own, if a dead transaction wrote it; and tells whether it
/// did.
///
/// # Errors
///
/// As `newest_link` of mg_chain, and as `take_newest_out` of mg_row_writes. Nothing has changed then.
pub(crate) fn take_dead<D: Disk, S: States>(
    store: &mut Store<D>,
    rec: RecId,
    states: &S,
    live: &Live,
) -> Result<bool, SpaceFault>
    requires pool { IsPool D.meaning store.old }
    requires geometry { IsGeometry store.old.geometry }

    ensures pool { IsPool D.meaning store.new }
    ensures geometry { store.new.geometry ≡ store.old.geometry }
    ensures takes { MatchResult result
        (DoesPart D.meaning store.old store.new (S.state_of states.now) live.now rec
        (without_dead (S.state_of states.now)))
        (FailsPart D.meaning store.old store.new (S.state_of states.now) live.now rec
        (without_dead (S.state_of states.now))) }
{
    cells_are_changed();
    let Some(first) = newest(store, rec)? else {
        return Ok(false);
    };
    if !is_dead(states, first.tx) {
        return Ok(false);
    }
    take_newest_out(store, rec)?;
    Ok(true)
}

/// Takes the only version out of a record, in a batch of its own, if it is a deletion that every base sees; and tells
/// whether it was. The record's slot is free then.
///
/// # Errors
///
/// As `newest_link` and `version_at` of mg_chain, and as `take_newest_out` of mg_row_writes. Nothing has changed then.
pub(crate) fn take_erased<D: Disk, S: States>(
    store: &mut Store<D>,
    rec: RecId,
    states: &S,
    live: &Live,
) -> Result<bool, SpaceFault>
    requires pool { IsPool D.meaning store.old }
    requires geometry { IsGeometry store.old.geometry }

    ensures pool { IsPool D.meaning store.new }
    ensures geometry { store.new.geometry ≡ store.old.geometry }
    ensures takes { MatchResult result
        (DoesPart D.meaning store.old store.new (S.state_of states.now) live.now rec
        (without_erased (S.state_of states.now) live.now))
        (FailsPart D.meaning store.old store.new (S.state_of states.now) live.now rec
        (without_erased (S.state_of states.now) live.now)) }
{
    cells_are_changed();
    let Some(first) = newest(store, rec)? else {
        return Ok(false);
    };
    let met = version(store, rec.page, first)?;
    if met.back.is_some() {
        return Ok(false);
    }
    if !is_erased_for_all(states, live, &met) {
        return Ok(false);
    }
    take_newest_out(store, rec)?;
    Ok(true)
}
