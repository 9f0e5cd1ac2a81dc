//! A batch is changed, if it is lawful.

ghost use Rattle.std.specs.Prelude.{◌≡◌, MatchResult};
ghost use Rattle.mg_pool.specs.Batch.{AreBelow};
ghost use Rattle.mg_pool.specs.Pool.{IsPool};
ghost use Rattle.mg_batches.specs.Batches.{ChangesBatch, FailsBatch, not_lawful};

use mg_base::{Damaged, Disk, Field, PageNo};
use mg_pool::Batch;
use mg_space::{SpaceFault, Store};

/// What is told of that which no lawful caller asks for: a bit of page 0 that is not set.
pub fn unlawful() -> Damaged
    ensures { result ≡ not_lawful }
{
    Damaged {
        page: PageNo(0),
        field: Field::Bit,
        found: 0,
        wanted: 1,
    }
}

/// Has the cache change a batch of pages below the page limit, if it is lawful.
///
/// # Errors
///
/// `Damaged` by `unlawful` where it is not, which no lawful caller meets; what the cache is refused for. No content has
/// changed then.
pub fn change_batch<D: Disk>(store: &mut Store<D>, batch: Batch) -> Result<(), SpaceFault>
    requires pool { IsPool D.meaning store.old }
    requires below { AreBelow store.old.geometry.limit batch.pages }

    ensures pool { IsPool D.meaning store.new }
    ensures geometry { store.new.geometry ≡ store.old.geometry }
    ensures changes { MatchResult result (λ _. ChangesBatch D.meaning store.old store.new batch)
        (FailsBatch D.meaning store.old store.new batch) }
{
    if !batch.is_lawful(store.geometry().size) {
        return Err(SpaceFault::Damaged(unlawful()));
    }
    match store.change(batch) {
        Ok(()) => Ok(()),
        Err(fault) => Err(SpaceFault::Pool(fault)),
    }
}
