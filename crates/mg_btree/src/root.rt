//! The root of a tree: whose it is, and on which level.

ghost use Rattle.std.specs.Prelude.{◌≡◌, List, length, ℕ};
ghost use Rattle.mg_base.specs.Image.{Image};
ghost use Rattle.mg_image.specs.Indexes.{IsTree};
ghost use Rattle.mg_pool.specs.Pool.{IsPool};
ghost use Rattle.mg_space.specs.Taking.{IsGeometry};
ghost use Rattle.mg_space.specs.View.{AreWhole, Tells, viewed};
ghost use Rattle.mg_btree.specs.Reading.{Reads};
ghost use Rattle.mg_btree.specs.Roots.{IsRootOf};

use crate::node::hold_page;
use mg_base::{Disk, OWNER_AT, PageNo, get_u32};
use mg_node::level_of;
use mg_pool::Batch;
use mg_space::{SpaceFault, Store, lent};

/// What a root's page says of its tree.
#[derive(Clone, Copy)]
pub(crate) struct Root {
    pub page: PageNo,
    /// The number of the first pointer page of the table.
    pub owner: u32,
    pub level: u16,
}

/// Reads whose a tree is, and on which level its root is.
///
/// # Errors
///
/// `Damaged` where the root's page is not there; else the cache's.
pub(crate) fn root_of<D: Disk>(
    store: &mut Store<D>,
    batch: &Batch,
    page: PageNo,
) -> Result<Root, SpaceFault>
    requires pool { IsPool D.meaning store.old }
    requires geometry { IsGeometry store.old.geometry }
    requires whole { AreWhole store.old.geometry batch.now.pages }

    ensures reads { Reads D.meaning store.old store.new result }
    ensures root { (image : Image) (owner : ℕ) (levels : List (List ℕ))
        → Tells D.meaning store.old.disk image
        → IsTree store.old.geometry.size (viewed store.old image batch.now) owner page.0 levels
        → IsRootOf (viewed store.old image batch.now) owner page.0 result }
{
    hold_page(store, batch, page)?;
    let bytes = lent(store, batch, page);
    Ok(Root {
        page,
        owner: get_u32(bytes, OWNER_AT),
        level: level_of(bytes),
    })
}
