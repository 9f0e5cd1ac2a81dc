//! A row is changed in a batch of its own.

ghost use Rattle.std.specs.Prelude.{◌≡◌, ◌≢◌, ◌+◌, ◌≤◌, ◌<◌, MatchResult, false, length};
ghost use Rattle.mg_pool.specs.Pool.{IsPool};
ghost use Rattle.mg_space.specs.Taking.{IsGeometry};
ghost use Rattle.mg_row_writes.specs.Changing.{FailsFirst, FailsOver, FailsPlace, FailsReplacing, FailsTakingOut, MakesFirst, PushesOver, ReplacesNewest, TakesNewestOut, TakesPlace};

use mg_base::{Disk, GREATEST_LIMIT, PageNo, RecId};
use mg_batches::change_batch;
use mg_chain::{back_out, first, push, replace_own, spot};
use mg_pool::Batch;
use mg_space::{SpaceFault, Store};
use mg_version::Version;

/// Takes a place for a record, in a batch of its own: it holds nothing yet.
///
/// `owner` is the table's first pointer page.
///
/// # Errors
///
/// As `spot` of mg_chain, and as the change of a batch.
pub fn take_place<D: Disk>(store: &mut Store<D>, owner: PageNo) -> Result<RecId, SpaceFault>
    requires pool { IsPool D.meaning store.old }
    requires geometry { IsGeometry store.old.geometry }
    requires owner { owner.0 < GREATEST_LIMIT }
    requires some { owner.0 ≢ 0 }

    ensures pool { IsPool D.meaning store.new }
    ensures geometry { store.new.geometry ≡ store.old.geometry }
    ensures takes { MatchResult result (TakesPlace D.meaning store.old store.new owner.0)
        (FailsPlace D.meaning store.old store.new owner.0) }
{
    let mut batch = Batch::new(store.alloc());
    let at = spot(store, &mut batch, owner)?;
    change_batch(store, batch)?;
    Ok(at)
}

/// Makes a record at a place that was taken, with its first version, in a batch of its own.
///
/// # Errors
///
/// As `first` of mg_chain, and as the change of a batch.
pub fn make_first<D: Disk>(
    store: &mut Store<D>,
    owner: PageNo,
    at: RecId,
    v: &Version,
) -> Result<(), SpaceFault>
    requires pool { IsPool D.meaning store.old }
    requires geometry { IsGeometry store.old.geometry }
    requires owner { owner.0 < GREATEST_LIMIT }
    requires some { owner.0 ≢ 0 }
    requires apart { v.now.primary ≡ false }
    requires stored { 1 ≤ v.now.format }
    requires length { length v.now.body + 42 ≤ store.old.geometry.size }

    ensures pool { IsPool D.meaning store.new }
    ensures geometry { store.new.geometry ≡ store.old.geometry }
    ensures makes { MatchResult result (λ _. MakesFirst D.meaning store.old store.new owner.0 at v.now)
        (FailsFirst D.meaning store.old store.new owner.0 at v.now) }
{
    let mut batch = Batch::new(store.alloc());
    first(store, &mut batch, owner, at, v)?;
    change_batch(store, batch)
}

/// Pushes a version over the newest one of a record, in a batch of its own.
///
/// # Errors
///
/// As `push` of mg_chain, and as the change of a batch.
pub fn push_over<D: Disk>(store: &mut Store<D>, rec: RecId, v: &Version) -> Result<(), SpaceFault>
    requires pool { IsPool D.meaning store.old }
    requires geometry { IsGeometry store.old.geometry }
    requires apart { v.now.primary ≡ false }
    requires stored { 1 ≤ v.now.format }
    requires length { length v.now.body + 42 ≤ store.old.geometry.size }

    ensures pool { IsPool D.meaning store.new }
    ensures geometry { store.new.geometry ≡ store.old.geometry }
    ensures pushes { MatchResult result (λ _. PushesOver D.meaning store.old store.new rec v.now)
        (FailsOver D.meaning store.old store.new rec v.now) }
{
    let mut batch = Batch::new(store.alloc());
    push(store, &mut batch, rec, v)?;
    change_batch(store, batch)
}

/// Replaces a transaction's own newest version of a record, in a batch of its own.
///
/// # Errors
///
/// As `replace_own` of mg_chain, and as the change of a batch.
pub fn replace_newest<D: Disk>(
    store: &mut Store<D>,
    rec: RecId,
    v: &Version,
) -> Result<(), SpaceFault>
    requires pool { IsPool D.meaning store.old }
    requires geometry { IsGeometry store.old.geometry }
    requires apart { v.now.primary ≡ false }
    requires stored { 1 ≤ v.now.format }
    requires length { length v.now.body + 42 ≤ store.old.geometry.size }

    ensures pool { IsPool D.meaning store.new }
    ensures geometry { store.new.geometry ≡ store.old.geometry }
    ensures replaces { MatchResult result (λ _. ReplacesNewest D.meaning store.old store.new rec v.now)
        (FailsReplacing D.meaning store.old store.new rec v.now) }
{
    let mut batch = Batch::new(store.alloc());
    replace_own(store, &mut batch, rec, v)?;
    change_batch(store, batch)
}

/// Takes the newest version of a record out, in a batch of its own.
///
/// # Errors
///
/// As `back_out` of mg_chain, and as the change of a batch.
pub fn take_newest_out<D: Disk>(store: &mut Store<D>, rec: RecId) -> Result<(), SpaceFault>
    requires pool { IsPool D.meaning store.old }
    requires geometry { IsGeometry store.old.geometry }

    ensures pool { IsPool D.meaning store.new }
    ensures geometry { store.new.geometry ≡ store.old.geometry }
    ensures takes { MatchResult result (λ _. TakesNewestOut D.meaning store.old store.new rec)
        (FailsTakingOut D.meaning store.old store.new rec) }
{
    let mut batch = Batch::new(store.alloc());
    back_out(store, &mut batch, rec)?;
    change_batch(store, batch)
}
