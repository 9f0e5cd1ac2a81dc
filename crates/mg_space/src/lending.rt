//! A page is lent to one who fills a batch: first it is made readable, then its bytes are lent.

ghost use Rattle.std.specs.Bool.{OnTrue};
ghost use Rattle.std.specs.Prelude.{◌≡◌, ◌<◌, Some, length, IfSome, IsSome, OnOk};
ghost use Rattle.mg_base.specs.Image.{Image};
ghost use Rattle.mg_pool.specs.Fault.{TellsFault};
ghost use Rattle.mg_pool.specs.Pool.{IsPool};
ghost use Rattle.mg_pool.specs.Reading.{Fetches};
ghost use Rattle.mg_space.specs.Lawful.{IsLawfulPage, readable};
ghost use Rattle.mg_space.specs.View.{AreWhole, KeepsStore, RefusesRead, Tells, pool_answer, viewed};

use crate::fault::SpaceFault;
use crate::links::Store;
use crate::reading::absence_of;
use mg_base::{Disk, PageNo};
use mg_pool::{Batch, PoolFault};

/// Makes a page readable: `lent` lends its bytes then. It copies nothing.
///
/// # Errors
///
/// As `page_of`.
pub fn hold<D: Disk>(store: &mut Store<D>, batch: &Batch, page: PageNo) -> Result<(), SpaceFault>
    requires pool { IsPool D.meaning store.old }

    ensures keeps { KeepsStore D.meaning store.old store.new }
    ensures fault { TellsFault D.meaning store.old store.new (pool_answer result) }
    ensures refusal { RefusesRead D.meaning store.new batch.now.pages page result }
    ensures held { OnOk result (IsSome (readable store.new batch.now.pages page.0)) }
    ensures reads { Fetches D.meaning store.old store.new page.0 }
{
    store.online()?;
    if let Some(_) = batch.bytes(page) {
        return Ok(());
    }
    match store.fetch(page) {
        Ok(()) => Ok(()),
        Err(PoolFault::Absent { pages }) => Err(SpaceFault::Damaged(absence_of(page, pages))),
        Err(fault) => Err(SpaceFault::Pool(fault)),
    }
}

/// The bytes of a page that was made readable, as one sees it who fills a batch. It lies below the
/// page limit.
pub fn lent<'a, D: Disk>(store: &'a Store<D>, batch: &'a Batch, page: PageNo) -> &'a [u8]
    requires pool { IsPool D.meaning store.now }
    requires whole { AreWhole store.now.geometry batch.now.pages }
    requires held { IsSome (readable store.now batch.now.pages page.0) }

    ensures read { readable store.now batch.now.pages page.0 ≡ Some result.now }
    ensures len { length result.now ≡ store.now.geometry.size }
    ensures below { page.0 < store.now.geometry.limit }
    ensures seen { (image : Image) → Tells D.meaning store.now.disk image
        → result.now ≡ viewed store.now image batch.now page.0 }
{
    match batch.bytes(page) {
        Some(bytes) => bytes,
        None => store.bytes(page).unwrap(),
    }
}

/// Tells that a readable page is the page that it says it is, without a look at its bytes. It may
/// be so where the answer is no.
pub fn passes<D: Disk>(store: &Store<D>, batch: &Batch, page: PageNo) -> bool
    requires { IsPool D.meaning store.now }
    ensures { OnTrue result (IfSome (readable store.now batch.now.pages page.0)
        (λ b. IsLawfulPage page.0 b)) }
{
    match batch.bytes(page) {
        Some(_) => false,
        None => store.passes(page),
    }
}
