//! The first pointer page of a new table.

ghost use Rattle.std.specs.Prelude.{◌≡◌, ◌≤◌, ◌<◌, IfOk, MatchResult, OnErr, OnOk, length};
ghost use Rattle.mg_base.specs.Image.{Image, blank};
ghost use Rattle.mg_pointer.specs.PointerPage.{new_pointer_page};
ghost use Rattle.mg_pool.specs.Batch.{PutsPage};
ghost use Rattle.mg_pool.specs.Fault.{TellsFault};
ghost use Rattle.mg_pool.specs.Pool.{IsPool};
ghost use Rattle.mg_space.specs.Taking.{IsGeometry, RefusesTake};
ghost use Rattle.mg_space.specs.View.{AreWhole, KeepsStore, ReadsAlone, Tells, pool_answer, viewed};
ghost use Rattle.mg_table_batch.specs.Filling.{TakesFirst};

use mg_base::{Disk, GREATEST_LIMIT, Memory, PageNo};
use mg_pointer::new_pointer;
use mg_pool::Batch;
use mg_space::{SpaceFault, Store, take_page};

/// Takes the least free page, and makes it the first pointer page of a table.
///
/// # Errors
///
/// As `take_page`. The batch may then have the inventory page with its bit: the caller drops it.
pub(crate) fn take_first<D: Disk>(
    store: &mut Store<D>,
    batch: &mut Batch,
) -> Result<PageNo, SpaceFault>
    requires pool { IsPool D.meaning store.old }
    requires geometry { IsGeometry store.old.geometry }
    requires whole { AreWhole store.old.geometry batch.old.pages }

    ensures keeps { KeepsStore D.meaning store.old store.new }
    ensures fault { TellsFault D.meaning store.old store.new (pool_answer result) }
    ensures own { ReadsAlone result }
    ensures whole { OnOk result (AreWhole store.old.geometry batch.new.pages) }
    ensures below { IfOk result (λ page. page.0 < GREATEST_LIMIT) }
    ensures takes { (image : Image) → Tells D.meaning store.old.disk image → MatchResult result
        (λ page. TakesFirst store.old image batch.old batch.new page.0)
        (RefusesTake store.old.geometry (viewed store.old image batch.old)) }
{
    let page = take_page(store, batch)?;
    make_first_page(store, batch, page)?;
    Ok(page)
}

/// Makes a page the first pointer page of a table.
fn make_first_page<D: Disk>(store: &Store<D>, batch: &mut Batch, page: PageNo) -> Result<(), Memory>
    requires { IsGeometry store.now.geometry }
    ensures made { OnOk result (PutsPage batch.old batch.new page.0
        (new_pointer_page store.now.geometry.size page.0 page.0 0)) }
    ensures same { OnErr result (batch.new ≡ batch.old) }
{
    let mut bytes = blank_page(store)?;
    start_pointer(&mut bytes, page);
    batch.put(page, &bytes)?;
    Ok(())
}

/// Makes bytes the first pointer page of a table.
fn start_pointer(bytes: &mut [u8], page: PageNo)
    requires least { 1024 ≤ length bytes.old }
    requires most { length bytes.old ≤ 16384 }
    ensures { bytes.new ≡ new_pointer_page (length bytes.old) page.0 page.0 0 }
{
    new_pointer(bytes, page, page.0, 0);
}

/// A page of zeros.
fn blank_page<D: Disk>(store: &Store<D>) -> Result<Vec<u8>, Memory>
    ensures { IfOk result (λ page. page.items ≡ blank store.now.geometry.size) }
{
    let size = store.geometry().size as usize;
    Ok(vec![in store.alloc(); 0u8; size]?)
}
