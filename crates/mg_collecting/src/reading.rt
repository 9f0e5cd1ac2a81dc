//! What is read of a record between two batches.

ghost use Rattle.std.specs.Prelude.{◌≡◌, [], MatchResult};
ghost use Rattle.mg_base.specs.Image.{Image};
ghost use Rattle.mg_chain.specs.Chains.{Meets, newest_link as link_of};
ghost use Rattle.mg_chain.specs.Refusals.{RefusesCellAt, RefusesVersion};
ghost use Rattle.mg_heap.specs.Reading.{ReadsData};
ghost use Rattle.mg_image.specs.Records.{cells_of};
ghost use Rattle.mg_model.specs.Answers.{is_committed as is_committed_state};
ghost use Rattle.mg_pool.specs.Fault.{TellsFault};
ghost use Rattle.mg_pool.specs.Pool.{IsPool, shown};
ghost use Rattle.mg_space.specs.Taking.{IsGeometry};
ghost use Rattle.mg_space.specs.View.{KeepsStore, Tells, pool_answer};

use mg_base::{Disk, PageNo, RecId, TxNo, TxState};
use mg_chain::{States, newest_link, version_at};
use mg_pool::Batch;
use mg_space::{SpaceFault, Store};
use mg_version::{Link, Version};

/// Where the newest version of a record is.
pub(crate) fn newest<D: Disk>(store: &mut Store<D>, rec: RecId) -> Result<Option<Link>, SpaceFault>
    requires pool { IsPool D.meaning store.old }
    requires geometry { IsGeometry store.old.geometry }

    ensures keeps { KeepsStore D.meaning store.old store.new }
    ensures fault { TellsFault D.meaning store.old store.new (pool_answer result) }
    ensures own { ReadsData result }
    ensures gives { (image : Image) → Tells D.meaning store.old.disk image → MatchResult result
        (λ found. found ≡ link_of (shown store.old.dirty image) rec)
        (RefusesCellAt D.meaning store.new [] (shown store.old.dirty image) rec) }
{
    let batch = Batch::new(store.alloc());
    newest_link(store, &batch, rec)
}

/// The version that a link meets. `holder` is the page where the link stands.
pub(crate) fn version<D: Disk>(
    store: &mut Store<D>,
    holder: PageNo,
    link: Link,
) -> Result<Version, SpaceFault>
    requires pool { IsPool D.meaning store.old }
    requires geometry { IsGeometry store.old.geometry }

    ensures keeps { KeepsStore D.meaning store.old store.new }
    ensures fault { TellsFault D.meaning store.old store.new (pool_answer result) }
    ensures own { ReadsData result }
    ensures gives { (image : Image) → Tells D.meaning store.old.disk image → MatchResult result
        (Meets (cells_of (shown store.old.dirty image)) link)
        (RefusesVersion D.meaning store.new [] (shown store.old.dirty image) holder.0 link) }
{
    let batch = Batch::new(store.alloc());
    version_at(store, &batch, holder, link)
}

/// Tells whether a transaction is committed.
pub(crate) fn is_committed<S: States>(states: &S, t: TxNo) -> bool
    ensures { result ≡ is_committed_state (S.state_of states.now t.0) }
{
    matches!(states.state(t), TxState::Committed)
}
