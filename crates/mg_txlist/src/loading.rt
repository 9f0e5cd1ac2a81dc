//! The list is loaded: the header, and the chain of transaction inventory pages from the last one
//! back.

ghost use Rattle.std.specs.Prelude.{◌≡◌, ◌<◌, ◌≤◌, ◌+◌, [], ℕ, length, Ok, IfErr, IfOk, IsSome, OnOk};
ghost use Rattle.mg_base.specs.Image.{Image};
ghost use Rattle.mg_header.specs.HeaderPage.{reading};
ghost use Rattle.mg_header.specs.declared.header.TheConstants.{GREATEST_NEXT as MOST_NEXT};
ghost use Rattle.mg_pool.specs.Fault.{TellsFault};
ghost use Rattle.mg_pool.specs.Pool.{IsPool, resident, shown};
ghost use Rattle.mg_pool.specs.Reading.{Fetches, ReadsPages};
ghost use Rattle.mg_space.specs.Taking.{IsGeometry};
ghost use Rattle.mg_space.specs.View.{KeepsStore, ReadsAlone, Tells, pool_answer};
ghost use Rattle.mg_txlist.specs.Chain.{AreTested, AreWholePages, HasHead, IsTipOf, tips_below};
ghost use Rattle.mg_txlist.specs.Reading.{ReadsList, is_among_tips};
ghost use Rattle.mg_txlist.specs.Refusals.{RefusesHead, RefusesLoad, RefusesTip, RefusesTips, link_to_head, wanted_in};
ghost use Rattle.mg_txlist.specs.TxList.{IsTxList, TipsAreBelow};

use crate::list::{TipPage, TxList};
use mg_base::{Damaged, Disk, Field, GREATEST_LIMIT, PageNo};
use mg_header::{HeadFault, Header, MAGIC, MAJOR, OPENED_MINOR, open_header};
use mg_pool::Batch;
use mg_space::{SpaceFault, Store, page_of, places_of};
use mg_tip::{check_tip, prev_of};

impl TxList {
    /// The list of a database: what the header and the transaction inventory pages say. No number
    /// was drawn in this run then.
    ///
    /// # Errors
    ///
    /// `Damaged` at the first field that differs of the header, else of a transaction inventory
    /// page, the last one first; `Pool` with `DiskRead`, `Offline` or `Memory`.
    pub fn load<D: Disk>(store: &mut Store<D>) -> Result<TxList, SpaceFault>
        requires pool { IsPool D.meaning store.old }
        requires geometry { IsGeometry store.old.geometry }

        ensures keeps { KeepsStore D.meaning store.old store.new }
        ensures fault { TellsFault D.meaning store.old store.new (pool_answer result) }
        ensures own { ReadsAlone result }
        ensures list { IfOk result IsTxList }
        ensures size { IfOk result (λ list. list.size ≡ store.old.geometry.size) }
        ensures tips { IfOk result (TipsAreBelow store.old.geometry.limit) }
        ensures fresh { IfOk result (λ list. list.own.items ≡ []) }
        ensures says { (image : Image) → Tells D.meaning store.old.disk image → IfOk result
            (λ list. HasHead store.old.geometry.size (shown store.old.dirty image)
            list.first list.pages.items) }
        ensures refused { (image : Image) → Tells D.meaning store.old.disk image → IfErr result
            (RefusesLoad D.meaning store.new store.old.geometry (shown store.old.dirty image)) }
        ensures reads { IfOk result (λ list. ReadsList D.meaning store.old store.new list.pages.items) }
    {
        let batch = Batch::new(store.alloc());
        let header = read_head(store, &batch)?;
        let size = store.geometry().size;
        let last = (header.next.0 - 1) / places_of(size);
        let pages = load_pages(store, &batch, header.last_tip, last + 1)?;
        Ok(TxList {
            size,
            first: header.next.0,
            pages,
            own: Vec::new(store.alloc()),
        })
    }
}

/// The header of a database.
pub(crate) fn read_head<D: Disk>(store: &mut Store<D>, batch: &Batch) -> Result<Header, SpaceFault>
    requires pool { IsPool D.meaning store.old }
    requires geometry { IsGeometry store.old.geometry }
    requires empty { batch.now.pages ≡ [] }

    ensures keeps { KeepsStore D.meaning store.old store.new }
    ensures fault { TellsFault D.meaning store.old store.new (pool_answer result) }
    ensures own { ReadsAlone result }
    ensures least { IfOk result (λ header. 1 ≤ header.next.0) }
    ensures most { IfOk result (λ header. header.next.0 ≤ MOST_NEXT) }
    ensures says { (image : Image) → Tells D.meaning store.old.disk image → IfOk result
        (λ header. reading (shown store.old.dirty image 0) store.old.geometry.size ≡ Ok header) }
    ensures refused { (image : Image) → Tells D.meaning store.old.disk image → IfErr result
        (RefusesHead D.meaning store.new store.old.geometry.size (shown store.old.dirty image 0)) }
    ensures reads { Fetches D.meaning store.old store.new 0 }
    ensures held { OnOk result (IsSome (resident store.new 0)) }
{
    let size = store.geometry().size;
    let page = page_of(store, batch, PageNo(0))?;
    match open_header(page.as_slice(), size) {
        Ok(header) => Ok(header),
        Err(HeadFault::Damaged(damage)) => Err(SpaceFault::Damaged(damage)),
        Err(HeadFault::NotADatabase { field, found }) => Err(SpaceFault::Damaged(Damaged {
            page: PageNo(0),
            field,
            found,
            wanted: wanted_of(field, size),
        })),
    }
}

/// What is wanted of a field that tells a database.
fn wanted_of(field: Field, size: u32) -> u64
    ensures { result ≡ wanted_in size field }
{
    match field {
        Field::Magic => u64::from(MAGIC),
        Field::Major => u64::from(MAJOR),
        Field::Minor => u64::from(OPENED_MINOR),
        _ => u64::from(size),
    }
}

/// So many transaction inventory pages, from the last one back, by sequence.
fn load_pages<D: Disk>(
    store: &mut Store<D>,
    batch: &Batch,
    last: PageNo,
    count: u32,
) -> Result<Vec<TipPage>, SpaceFault>
    requires pool { IsPool D.meaning store.old }
    requires geometry { IsGeometry store.old.geometry }
    requires empty { batch.now.pages ≡ [] }

    ensures keeps { KeepsStore D.meaning store.old store.new }
    ensures fault { TellsFault D.meaning store.old store.new (pool_answer result) }
    ensures own { ReadsAlone result }
    ensures count { IfOk result (λ pages. length pages.items ≡ count) }
    ensures whole { IfOk result (λ pages. AreWholePages store.old.geometry pages.items) }
    ensures tested { IfOk result (λ pages. AreTested 0 pages.items) }
    ensures says { (image : Image) → Tells D.meaning store.old.disk image → IfOk result
        (λ pages. pages.items ≡ tips_below (shown store.old.dirty image) last.0 count) }
    ensures refused { (image : Image) → Tells D.meaning store.old.disk image → IfErr result
        (RefusesTips D.meaning store.new (shown store.old.dirty image) last.0 count) }
    ensures reads { IfOk result (λ pages. ReadsPages D.meaning store.old store.new (length pages.items)
        (is_among_tips pages.items)) }
{
    store.online()?;
    let mut pages = Vec::new(store.alloc());
    let mut holder = PageNo(0);
    let mut at = last;
    for k in 0..count {
        let page = load_page(store, batch, holder, at, count - k - 1)?;
        holder = at;
        at = prev_of(page.bytes.as_slice());
        pages.insert(0, page)?;
    }
    Ok(pages)
}

/// The transaction inventory page that another page names. None is the header page.
fn load_page<D: Disk>(
    store: &mut Store<D>,
    batch: &Batch,
    holder: PageNo,
    at: PageNo,
    sequence: u32,
) -> Result<TipPage, SpaceFault>
    requires pool { IsPool D.meaning store.old }
    requires geometry { IsGeometry store.old.geometry }
    requires empty { batch.now.pages ≡ [] }

    ensures keeps { KeepsStore D.meaning store.old store.new }
    ensures fault { TellsFault D.meaning store.old store.new (pool_answer result) }
    ensures own { ReadsAlone result }
    ensures page { IfOk result (λ page. page.page ≡ at.0) }
    ensures whole { IfOk result (λ page. length page.bytes ≡ store.old.geometry.size) }
    ensures below { OnOk result (at.0 < store.old.geometry.limit) }
    ensures tested { IfOk result (λ page. IsTipOf sequence page) }
    ensures says { (image : Image) → Tells D.meaning store.old.disk image → IfOk result
        (λ page. page.bytes ≡ shown store.old.dirty image at.0) }
    ensures refused { (image : Image) → Tells D.meaning store.old.disk image → IfErr result
        (RefusesTip D.meaning store.new holder (shown store.old.dirty image) sequence at) }
    ensures reads { Fetches D.meaning store.old store.new at.0 }
{
    store.online()?;
    if at.0 == 0 {
        return Err(SpaceFault::Damaged(no_link(holder)));
    }
    let bytes = page_of(store, batch, at)?;
    check_tip(bytes.as_slice(), at, sequence)?;
    Ok(TipPage { page: at.0, bytes })
}

/// Names a link of the chain that leads to the header page.
fn no_link(holder: PageNo) -> Damaged
    ensures { result ≡ link_to_head holder }
{
    Damaged {
        page: holder,
        field: Field::Link,
        found: 0,
        wanted: u64::from(GREATEST_LIMIT - 1),
    }
}
