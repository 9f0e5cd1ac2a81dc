//! The catalog gets a data page, and a lawful batch is changed.

ghost use Rattle.std.specs.Prelude.{◌≡◌, ◌≢◌, ◌<◌, MatchResult};
ghost use Rattle.mg_pool.specs.Batch.{AreBelow, IsLawful};
ghost use Rattle.mg_pool.specs.Pool.{IsPool};
ghost use Rattle.mg_batches.specs.Batches.{ChangesBatch, FailsBatch};
ghost use Rattle.mg_space.specs.Taking.{IsGeometry};
ghost use Rattle.mg_table_batch.specs.Making.{FailsGrowth, Grows};

use mg_base::{Disk, GREATEST_LIMIT, PageNo};
use mg_batches::change_batch;
use mg_heap::page_with_room;
use mg_pool::Batch;
use mg_space::{SpaceFault, Store};

/// Gives a table a data page more, in a batch of its own.
///
/// # Errors
///
/// As `page_with_room` of mg_heap, and as the change of a batch.
pub(crate) fn grow<D: Disk>(store: &mut Store<D>, owner: PageNo) -> Result<(), SpaceFault>
    requires pool { IsPool D.meaning store.old }
    requires geometry { IsGeometry store.old.geometry }
    requires owner { owner.0 < GREATEST_LIMIT }
    requires some { owner.0 ≢ 0 }

    ensures pool { IsPool D.meaning store.new }
    ensures geometry { store.new.geometry ≡ store.old.geometry }
    ensures grows { MatchResult result (λ _. Grows D.meaning store.old store.new owner.0)
        (FailsGrowth D.meaning store.old store.new owner.0) }
{
    let mut batch = Batch::new(store.alloc());
    let size = store.geometry().size;
    // No data page has room for a whole page, so this one is new.
    page_with_room(store, &mut batch, owner, size)?;
    change_batch(store, batch)
}

/// Has the cache change a lawful batch of pages below the page limit.
pub(crate) fn change_lawful<D: Disk>(store: &mut Store<D>, batch: Batch) -> Result<(), SpaceFault>
    requires pool { IsPool D.meaning store.old }
    requires lawful { IsLawful store.old.geometry.size batch.pages batch.orders }
    requires below { AreBelow store.old.geometry.limit batch.pages }

    ensures pool { IsPool D.meaning store.new }
    ensures geometry { store.new.geometry ≡ store.old.geometry }
    ensures changes { MatchResult result (λ _. ChangesBatch D.meaning store.old store.new batch)
        (FailsBatch D.meaning store.old store.new batch) }
{
    match store.change(batch) {
        Ok(()) => Ok(()),
        Err(fault) => Err(SpaceFault::Pool(fault)),
    }
}
