//! A number is drawn: the header has a higher next one, and the first transaction of a transaction
//! inventory page gets that page.

ghost use Rattle.std.specs.Prelude.{◌≡◌, ◌≢◌, ◌<◌, ◌≤◌, ◌+◌, ◌/◌, ◌%◌, ◌↔◌, ◌++◌, ◌∷◌, [], Ok, ℕ, IfErr, IfOk, IfSome, OnErr, OnOk, true};
ghost use Rattle.std.specs.Bool.{OnTrue};
ghost use Rattle.mg_base.specs.Geometry.{is_page_size};
ghost use Rattle.mg_base.specs.Image.{Image};
ghost use Rattle.mg_base.specs.declared.geometry.TheConstants.{GREATEST_LIMIT as MOST_LIMIT};
ghost use Rattle.mg_base.specs.declared.transaction.TxState.TheVariants.{Active as ActiveState};
ghost use Rattle.mg_header.specs.HeaderPage.{reading, the_page};
ghost use Rattle.mg_header.specs.declared.header.TheConstants.{GREATEST_NEXT as MOST_NEXT};
ghost use Rattle.mg_pool.specs.Batch.{AreBelow, IsLawful};
ghost use Rattle.mg_pool.specs.Fault.{TellsFault};
ghost use Rattle.mg_pool.specs.Pool.{IsPool, shown};
ghost use Rattle.mg_space.specs.Taking.{IsGeometry, RefusesTake};
ghost use Rattle.mg_space.specs.View.{AreWhole, KeepsStore, ReadsAlone, Tells, pool_answer, viewed};
ghost use Rattle.mg_txlist.specs.Drawing.{AddsNumber, AddsPage, DrawsIn, DrawsOn, FailsDraw, IsTipFor, MayBeHeader, PutsHead, PutsTip, SaysSame, last_orders, may_precede as may_precede_one, raised_header};
ghost use Rattle.mg_txlist.specs.Refusals.{LacksHead, RefusesDraw};
ghost use Rattle.mg_txlist.specs.TxList.{IsTxList, TipsAreBelow, next_said};

use crate::list::{TipPage, TxList};
use crate::loading::read_head;
use mg_base::{Bytes, Damaged, Disk, Field, GREATEST_LIMIT, Memory, PageNo, TxNo, TxState};
use mg_careful::Order;
use mg_header::{Header, write_header};
use mg_pool::{Batch, PoolFault};
use mg_space::{SpaceFault, Store, inventory_page_of, page_of, places_of, take_page};
use mg_tip::new_tip;

impl TxList {
    /// Draws the next number: its transaction is active then. One batch raises the next number of
    /// the header. For the first transaction of a transaction inventory page it takes that page, and
    /// orders it and the page inventory page before the header, and the last such page so far before it.
    ///
    /// The bits of a number that was not drawn are those of active or dead, which count alike, so
    /// they are left as they are.
    ///
    /// # Errors
    ///
    /// `Full` where a page is needed and none is free; `Damaged` at a field of the header or of a
    /// page inventory page; `Pool`. The list says then what it said, and the cache is as before, but for
    /// page writes that were made before one failed.
    pub fn draw<D: Disk>(&mut self, store: &mut Store<D>) -> Result<TxNo, SpaceFault>
        requires list { IsTxList self.old }
        requires pool { IsPool D.meaning store.old }
        requires geometry { IsGeometry store.old.geometry }
        requires size { self.old.size ≡ store.old.geometry.size }
        requires below { next_said self.old < MOST_NEXT }

        ensures list { IsTxList self.new }
        ensures pool { IsPool D.meaning store.new }
        ensures geometry { store.new.geometry ≡ store.old.geometry }
        ensures fault { TellsFault D.meaning store.old store.new (pool_answer result) }
        ensures tips { TipsAreBelow store.old.geometry.limit self.old
            → TipsAreBelow store.old.geometry.limit self.new }
        ensures same { OnErr result (SaysSame self.old self.new) }
        ensures number { IfOk result (λ t. t.0 ≡ next_said self.old) }
        ensures adds { OnOk result (AddsNumber self.old self.new) }
        ensures draws { OnOk result (DrawsIn D.meaning self.old self.new store.old store.new) }
        ensures left { IfErr result (FailsDraw D.meaning store.old store.new) }
        ensures refused { (image : Image) → Tells D.meaning store.old.disk image → IfErr result
            (RefusesDraw D.meaning store.new store.old.geometry (next_said self.old)
            (shown store.old.dirty image)) }
    {
        let t = self.next();
        let mut batch = Batch::new(store.alloc());
        let page = fill(store, &mut batch, t)?;
        let pages = self.pages.len();
        let own = self.own.len();
        self.add(page)?;
        match store.change(batch) {
            Ok(()) => Ok(t),
            Err(fault) => {
                self.pages.truncate(pages);
                self.own.truncate(own);
                Err(SpaceFault::Pool(fault))
            }
        }
    }

    /// Adds an active number, and the page that it got.
    ///
    /// # Errors
    ///
    /// For want of memory. The list says then what it said.
    fn add(&mut self, page: Option<TipPage>) -> Result<(), SpaceFault>
        ensures own { OnOk result (self.new.own.items ≡ self.old.own.items ++ ActiveState ∷ []) }
        ensures pages { OnOk result (AddsPage self.old self.new page) }
        ensures size { self.new.size ≡ self.old.size }
        ensures first { self.new.first ≡ self.old.first }
        ensures memory { IfErr result (λ fault. fault ≡ SpaceFault.Pool PoolFault.Memory) }
        ensures same_own { OnErr result (self.new.own.items ≡ self.old.own.items) }
        ensures same_pages { OnErr result (self.new.pages.items ≡ self.old.pages.items) }
    {
        if let Some(page) = page {
            self.pages.push(page)?;
            if self.own.push(TxState::Active).is_err() {
                let _ = self.pages.pop();
                return Err(no_memory());
            }
            return Ok(());
        }
        self.own.push(TxState::Active)?;
        Ok(())
    }
}

/// Fills a batch with what the drawing of a number changes. The answer is the number's page, if it
/// is the first of one.
fn fill<D: Disk>(
    store: &mut Store<D>,
    batch: &mut Batch,
    t: TxNo,
) -> Result<Option<TipPage>, SpaceFault>
    requires pool { IsPool D.meaning store.old }
    requires geometry { IsGeometry store.old.geometry }
    requires empty { batch.old.pages ≡ [] }
    requires unordered { batch.old.orders ≡ [] }
    requires some { 1 ≤ t.0 }
    requires below { t.0 < MOST_NEXT }

    ensures keeps { KeepsStore D.meaning store.old store.new }
    ensures fault { TellsFault D.meaning store.old store.new (pool_answer result) }
    ensures own { ReadsAlone result }
    ensures lawful { OnOk result
        (IsLawful store.old.geometry.size batch.new.pages batch.new.orders) }
    ensures below { OnOk result (AreBelow store.old.geometry.limit batch.new.pages) }
    ensures page { IfOk result (IsTipFor store.old.geometry.size t.0) }
    ensures page_below { IfOk result (λ page. IfSome page
        (λ tip. tip.page < store.old.geometry.limit)) }
    ensures draws { (image : Image) → Tells D.meaning store.old.disk image → IfOk result
        (λ page. DrawsOn store.old.geometry t.0 (shown store.old.dirty image)
        (viewed store.old image batch.new) page batch.new.orders) }
    ensures refused { (image : Image) → Tells D.meaning store.old.disk image → IfErr result
        (RefusesDraw D.meaning store.new store.old.geometry t.0 (shown store.old.dirty image)) }
{
    let header = read_head(store, batch)?;
    if header.next.0 != t.0 {
        return Err(SpaceFault::Damaged(other_next(header.next, t)));
    }
    let size = store.geometry().size;
    if t.0 % places_of(size) != 0 {
        put_head(store, batch, &raised(header, header.last_tip))?;
        return Ok(None);
    }
    let page = put_tip(store, batch, t, header.last_tip)?;
    put_head(store, batch, &raised(header, PageNo(page.page)))?;
    Ok(Some(page))
}

/// Names a next number that is not the list's.
fn other_next(found: TxNo, wanted: TxNo) -> Damaged
    ensures { result ≡ record {
      page = the_page;
      field = Field.Next;
      found = found.0;
      wanted = wanted.0;
    } }
{
    Damaged {
        page: PageNo(0),
        field: Field::Next,
        found: u64::from(found.0),
        wanted: u64::from(wanted.0),
    }
}

/// A header with the next number one higher, and this last transaction inventory page.
fn raised(header: Header, last_tip: PageNo) -> Header
    requires { header.next.0 < MOST_NEXT }
    ensures { result ≡ raised_header header last_tip.0 }
{
    Header {
        minor: header.minor,
        next: TxNo(header.next.0 + 1),
        oit: header.oit,
        oat: header.oat,
        ost: header.ost,
        last_tip,
        interval: header.interval,
        catalog: header.catalog,
    }
}

/// Puts the header page with these fields.
fn put_head<D: Disk>(
    store: &mut Store<D>,
    batch: &mut Batch,
    header: &Header,
) -> Result<(), SpaceFault>
    requires pool { IsPool D.meaning store.old }
    requires geometry { IsGeometry store.old.geometry }
    requires whole { AreWhole store.old.geometry batch.old.pages }

    ensures keeps { KeepsStore D.meaning store.old store.new }
    ensures fault { TellsFault D.meaning store.old store.new (pool_answer result) }
    ensures own { ReadsAlone result }
    ensures puts { OnOk result (PutsHead store.old.geometry.size batch.old batch.new) }
    ensures below { OnOk result (0 < store.old.geometry.limit) }
    ensures head { (image : Image) → Tells D.meaning store.old.disk image → OnOk result
        (MayBeHeader header.now (viewed store.old image batch.old 0)
        → reading (viewed store.old image batch.new 0) store.old.geometry.size ≡ Ok header.now) }
    ensures lacks { IfErr result (LacksHead D.meaning store.new) }
{
    let page = page_of(store, batch, PageNo(0))?;
    let mut bytes = page.into_vec();
    write_header(&mut bytes, header);
    batch.put(PageNo(0), &bytes)?;
    Ok(())
}

/// Takes a page and makes it the transaction inventory page of a number, with the orders of it and
/// its bit before the header, and of the last page so far and its bit before it.
fn put_tip<D: Disk>(
    store: &mut Store<D>,
    batch: &mut Batch,
    t: TxNo,
    last_tip: PageNo,
) -> Result<TipPage, SpaceFault>
    requires pool { IsPool D.meaning store.old }
    requires geometry { IsGeometry store.old.geometry }
    requires whole { AreWhole store.old.geometry batch.old.pages }

    ensures keeps { KeepsStore D.meaning store.old store.new }
    ensures fault { TellsFault D.meaning store.old store.new (pool_answer result) }
    ensures own { ReadsAlone result }
    ensures puts { IfOk result (PutsTip D.meaning store.old batch.old batch.new t.0 last_tip.0) }
    ensures refused { (image : Image) → Tells D.meaning store.old.disk image → IfErr result
        (RefusesTake store.old.geometry (viewed store.old image batch.old)) }
{
    let size = store.geometry().size;
    let at = take_page(store, batch)?;
    let mut bytes = vec![in store.alloc(); 0u8; size as usize]?;
    new_tip(&mut bytes, at, t.0 / places_of(size), last_tip);
    batch.put(at, &bytes)?;
    // A header that names the page, or a number on it, comes after the page and after its bit.
    batch.order(Order {
        first: at.0,
        later: 0,
    })?;
    batch.order(Order {
        first: inventory_page_of(size, at).0,
        later: 0,
    })?;
    order_last(batch, size, at, last_tip)?;
    Ok(TipPage {
        page: at.0,
        bytes: Bytes::new(bytes),
    })
}

/// Orders the last page so far, and the page with its bit, before the new one, which leads back to it.
///
/// # Errors
///
/// For want of memory.
fn order_last(batch: &mut Batch, size: u32, page: PageNo, last: PageNo) -> Result<(), Memory>
    requires size { is_page_size size ≡ true }
    ensures pages { batch.new.pages ≡ batch.old.pages }
    ensures orders { OnOk result
        (batch.new.orders ≡ batch.old.orders ++ last_orders size page.0 last.0) }
{
    if !may_precede(page, last) {
        return Ok(());
    }
    batch.order(Order {
        first: last.0,
        later: page.0,
    })?;
    batch.order(Order {
        first: inventory_page_of(size, last).0,
        later: page.0,
    })?;
    Ok(())
}

/// Tells whether the page that a header names as its last one may come before a new one.
fn may_precede(page: PageNo, last: PageNo) -> bool
    ensures is { result ≡ may_precede_one page.0 last.0 }
    ensures below { OnTrue result (last.0 < MOST_LIMIT) }
{
    last.0 != 0 && last.0 != page.0 && last.0 < GREATEST_LIMIT
}

/// Want of memory, as a fault of the cache.
fn no_memory() -> SpaceFault
    ensures { result ≡ SpaceFault.Pool PoolFault.Memory }
{
    SpaceFault::Pool(PoolFault::Memory)
}
