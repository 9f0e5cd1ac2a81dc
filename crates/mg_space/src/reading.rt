//! A page is read by one who fills a batch.

ghost use Rattle.std.specs.Prelude.{◌≡◌, ◌<◌, Some, length, IfOk, OnOk};
ghost use Rattle.mg_base.specs.Image.{Image};
ghost use Rattle.mg_pool.specs.Fault.{TellsFault};
ghost use Rattle.mg_pool.specs.Pool.{IsPool};
ghost use Rattle.mg_pool.specs.Reading.{Fetches};
ghost use Rattle.mg_space.specs.View.{AreWhole, FindsPage, IsRead, KeepsStore, OnlyReads, RefusesRead, Tells, absence, bytes_found, pool_answer, viewed};

use crate::fault::SpaceFault;
use crate::links::Store;
use mg_base::{Bytes, Damaged, Disk, Field, Memory, PageNo};
use mg_pool::{Batch, PoolFault};
use std::alloc::Global;

/// What was found under the number of a page.
#[derive(Debug, Drop)]
pub enum Found {
    /// Its bytes, one page long.
    Page(Bytes),
    /// The page is neither in the batch nor dirty, and the disk has only this number of pages.
    Absent { pages: u32 },
}

/// Looks for a page as one who fills a batch: the batch's content, else what the cache shows.
///
/// # Errors
///
/// `Pool` alone: `Offline` exactly where an earlier call answered `DiskWrite`; `DiskRead` only where
/// the disk's count of faults rose in this call; `Memory`.
pub fn find_page<D: Disk>(
    store: &mut Store<D>,
    batch: &Batch,
    page: PageNo,
) -> Result<Found, SpaceFault>
    requires pool { IsPool D.meaning store.old }
    requires whole { AreWhole store.old.geometry batch.now.pages }

    ensures keeps { KeepsStore D.meaning store.old store.new }
    ensures fault { TellsFault D.meaning store.old store.new (pool_answer result) }
    ensures refusal { OnlyReads result }
    ensures found { IfOk result (FindsPage D.meaning store.new batch.now.pages page.0) }
    ensures read { IfOk result (IsRead store.new batch.now.pages page.0) }
    ensures seen { IfOk result (λ found. (image : Image) → Tells D.meaning store.old.disk image
        → bytes_found store.old.geometry.size found ≡ viewed store.old image batch.now page.0) }
    ensures reads { Fetches D.meaning store.old store.new page.0 }
{
    store.online()?;
    if let Some(bytes) = batch.bytes(page) {
        return Ok(Found::Page(copy_of(store.alloc(), bytes)?));
    }
    match store.fetch(page) {
        Ok(()) => {}
        Err(PoolFault::Absent { pages }) => return Ok(Found::Absent { pages }),
        Err(fault) => return Err(SpaceFault::Pool(fault)),
    }
    let bytes = store.bytes(page).unwrap();
    Ok(Found::Page(copy_of(store.alloc(), bytes)?))
}

/// The content of a page that is there, as one sees it who fills a batch.
///
/// # Errors
///
/// `Damaged` at `Presence`, exactly where the page is neither in the batch nor dirty, and lies past
/// the disk's end: found is the disk's number of pages, wanted the least number with which the page
/// would be there. `Pool` with `DiskRead`, `Offline` or `Memory`.
pub fn page_of<D: Disk>(
    store: &mut Store<D>,
    batch: &Batch,
    page: PageNo,
) -> Result<Bytes, SpaceFault>
    requires pool { IsPool D.meaning store.old }
    requires whole { AreWhole store.old.geometry batch.now.pages }

    ensures keeps { KeepsStore D.meaning store.old store.new }
    ensures fault { TellsFault D.meaning store.old store.new (pool_answer result) }
    ensures refusal { RefusesRead D.meaning store.new batch.now.pages page result }
    ensures len { IfOk result (λ b. length b ≡ store.old.geometry.size) }
    ensures below { OnOk result (page.0 < store.old.geometry.limit) }
    ensures seen { IfOk result (λ b. (image : Image) → Tells D.meaning store.old.disk image
        → b ≡ viewed store.old image batch.now page.0) }
    ensures reads { Fetches D.meaning store.old store.new page.0 }
    ensures read { IfOk result (λ b. IsRead store.new batch.now.pages page.0 (Found.Page b)) }
{
    match find_page(store, batch, page)? {
        Found::Page(bytes) => Ok(bytes),
        Found::Absent { pages } => Err(SpaceFault::Damaged(absence_of(page, pages))),
    }
}

/// Names a page that is not there, by the number of pages that are.
pub(crate) fn absence_of(page: PageNo, pages: u32) -> Damaged
    ensures { result ≡ absence page pages }
{
    Damaged {
        page,
        field: Field::Presence,
        found: u64::from(pages),
        wanted: u64::from(page.0) + 1,
    }
}

/// A copy of these bytes.
fn copy_of(alloc: Global, bytes: &[u8]) -> Result<Bytes, Memory>
    ensures { IfOk result (λ b. b ≡ bytes.now) }
{
    Ok(Bytes::new(Vec::from_slice(alloc, bytes)?))
}
