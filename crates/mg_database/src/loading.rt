//! What an engine has in memory of the pages is read, when a database is opened.

ghost use Rattle.std.specs.Prelude.{◌≡◌, ◌<◌, ◌≤◌, [], None, Ok, IfErr, IfOk, IsSome, OnOk};
ghost use Rattle.mg_base.specs.Image.{Image};
ghost use Rattle.mg_base.specs.declared.geometry.TheConstants.{GREATEST_LIMIT as MOST_LIMIT};
ghost use Rattle.mg_header.specs.HeaderPage.{reading};
ghost use Rattle.mg_pool.specs.Fault.{TellsFault};
ghost use Rattle.mg_pool.specs.Pool.{IsPool, resident, shown};
ghost use Rattle.mg_pool.specs.Reading.{Fetches};
ghost use Rattle.mg_space.specs.Taking.{IsGeometry};
ghost use Rattle.mg_space.specs.View.{KeepsStore, Tells};
ghost use Rattle.mg_txlist.specs.TxList.{IsTxList, next_said};
ghost use Rattle.mg_database.specs.Loading.{AreUndecided, AreUndecidedBelow, ChecksCatalog, IsLoaded, OpensAlone, ReadsFront, RefusesPages, SaysPages, cache_answer, head_fault, markers_in};

use crate::catalog::catalog_table;
use crate::fault::OpenFault;
use crate::tested::check_table;
use mg_base::{Damaged, Disk, Field, GREATEST_LIMIT, Markers, Memory, PageNo, TxNo};
use mg_header::{HeadFault, Header, open_header};
use mg_heap::TablePages;
use mg_model::Table;
use mg_pool::{Batch, PoolFault};
use mg_snap::Live;
use mg_space::{SpaceFault, Store, page_of};
use mg_txlist::TxList;
use std::alloc::Global;

/// What is read of a database when it is opened.
#[derive(Drop)]
pub struct Loaded {
    /// What has become of each transaction.
    pub list: TxList,
    /// Those that have not ended: the ones in limbo, without bases.
    pub live: Live,
    /// The table of the catalog, which stands where the header says.
    pub catalog: Table,
    /// Those of the header.
    pub markers: Markers,
    /// The pages of the catalog, which were tested.
    pub catalog_pages: TablePages,
}

/// Reads page 0 and the transaction inventory pages of a database, and tests the pages of its catalog: the chain
/// of its pointer pages, and then the data pages that they list, in their order. Each page is read once.
///
/// # Errors
///
/// `NotADatabase` exactly where that field of page 0 is the first that differs; `Damaged` at a field of page 0
/// or of a transaction inventory page, or at `Link` of page 0 where the catalog stands on a page that is no
/// part of a database, or at the first of the catalog's pages that is missing or not as wanted at its place;
/// `Pool` with `DiskRead` or `Memory`.
pub fn load<D: Disk>(store: &mut Store<D>) -> Result<Loaded, OpenFault>
    requires pool { IsPool D.meaning store.old }
    requires geometry { IsGeometry store.old.geometry }
    requires online { store.old.offline ≡ None }

    ensures keeps { KeepsStore D.meaning store.old store.new }
    ensures lawful { IfOk result (IsLoaded store.old.geometry) }
    ensures fault { TellsFault D.meaning store.old store.new (cache_answer result) }
    ensures own { OpensAlone result }
    ensures says { (image : Image) → Tells D.meaning store.old.disk image → IfOk result (λ loaded.
        SaysPages store.old.geometry.size (shown store.old.dirty image) loaded.list
        loaded.catalog.pointer loaded.markers loaded.catalog_pages.pointers.items
        loaded.catalog_pages.data_pages.items) }
    ensures refused { (image : Image) → Tells D.meaning store.old.disk image → IfErr result
        (RefusesPages D.meaning store.new store.old.geometry (shown store.old.dirty image)) }
    ensures reads { IfOk result (λ loaded. ReadsFront D.meaning store.old store.new loaded.list.pages.items
        loaded.catalog_pages.pointers.items loaded.catalog_pages.data_pages.items) }
{
    let alloc = store.alloc();
    let header = match read_first(store) {
        Ok(header) => header,
        Err(fault) => return Err(fault),
    };
    let list = match TxList::load(store) {
        Ok(list) => list,
        Err(fault) => return Err(OpenFault::Space(fault)),
    };
    let live = match undecided(alloc, &list) {
        Ok(live) => live,
        Err(_) => return Err(no_memory()),
    };
    let catalog = match catalog_table(alloc, header.catalog) {
        Ok(catalog) => catalog,
        Err(_) => return Err(no_memory()),
    };
    let markers = markers_of(header);
    let catalog_pages = match check_table(store, header.catalog) {
        Ok(pages) => pages,
        Err(fault) => return Err(OpenFault::Space(fault)),
    };
    Ok(Loaded {
        list,
        live,
        catalog,
        markers,
        catalog_pages,
    })
}

/// The header of a database, whose catalog stands on one of its pages.
///
/// # Errors
///
/// As `load`, of page 0.
fn read_first<D: Disk>(store: &mut Store<D>) -> Result<Header, OpenFault>
    requires pool { IsPool D.meaning store.old }
    requires geometry { IsGeometry store.old.geometry }
    requires online { store.old.offline ≡ None }

    ensures keeps { KeepsStore D.meaning store.old store.new }
    ensures fault { TellsFault D.meaning store.old store.new (cache_answer result) }
    ensures own { OpensAlone result }
    ensures catalog { IfOk result (λ header. header.catalog.0 < MOST_LIMIT) }
    ensures says { (image : Image) → Tells D.meaning store.old.disk image → IfOk result
        (λ header. reading (shown store.old.dirty image 0) store.old.geometry.size ≡ Ok header) }
    ensures refused { (image : Image) → Tells D.meaning store.old.disk image → IfErr result
        (RefusesPages D.meaning store.new store.old.geometry (shown store.old.dirty image)) }
    ensures reads { Fetches D.meaning store.old store.new 0 }
    ensures held { OnOk result (IsSome (resident store.new 0)) }
{
    let batch = Batch::new(store.alloc());
    let size = store.geometry().size;
    let page = match page_of(store, &batch, PageNo(0)) {
        Ok(page) => page,
        Err(fault) => return Err(OpenFault::Space(fault)),
    };
    match open_header(page.as_slice(), size) {
        Ok(header) => check_catalog(header),
        Err(fault) => Err(fault_of(fault)),
    }
}

/// A header, if the catalog stands on a page below the greatest limit.
///
/// # Errors
///
/// `Damaged` at `Link` of page 0 exactly where it doesn't.
fn check_catalog(header: Header) -> Result<Header, OpenFault>
    ensures { ChecksCatalog header result }
{
    if header.catalog.0 < GREATEST_LIMIT {
        return Ok(header);
    }
    Err(OpenFault::Space(SpaceFault::Damaged(Damaged {
        page: PageNo(0),
        field: Field::Link,
        found: u64::from(header.catalog.0),
        wanted: u64::from(GREATEST_LIMIT - 1),
    })))
}

/// Why page 0 is none of a database.
fn fault_of(fault: HeadFault) -> OpenFault
    ensures { result ≡ head_fault fault }
{
    match fault {
        HeadFault::NotADatabase { field, found } => OpenFault::NotADatabase { field, found },
        HeadFault::Damaged(damage) => OpenFault::Space(SpaceFault::Damaged(damage)),
    }
}

/// Want of memory.
fn no_memory() -> OpenFault
    ensures { result ≡ OpenFault.Space (SpaceFault.Pool PoolFault.Memory) }
{
    OpenFault::Space(SpaceFault::Pool(PoolFault::Memory))
}

/// The markers of a header.
fn markers_of(header: Header) -> Markers
    ensures { result ≡ markers_in header }
{
    Markers {
        oit: header.oit,
        oat: header.oat,
        ost: header.ost,
        next: header.next,
    }
}

/// Those who have not ended when a database is opened: the transactions in limbo, without bases.
///
/// # Errors
///
/// `Memory` only.
fn undecided(alloc: Global, list: &TxList) -> Result<Live, Memory>
    requires list { IsTxList list.now }
    requires undrawn { list.now.own.items ≡ [] }
    ensures { IfOk result (AreUndecided list.now) }
{
    let next = list.next();
    let mut live = Live::new(alloc, next);
    let mut from = TxNo(1);
    while from.0 < next.0 {
        match enter_next(&mut live, list, from) {
            Ok(behind) => from = behind,
            Err(memory) => return Err(memory),
        }
    }
    Ok(live)
}

/// The next transaction in limbo enters, from a number on, and has no base. The answer is the number
/// behind it; where there is none, the next number.
///
/// # Errors
///
/// `Memory` only.
fn enter_next(live: &mut Live, list: &TxList, from: TxNo) -> Result<TxNo, Memory>
    requires list { IsTxList list.now }
    requires undrawn { list.now.own.items ≡ [] }
    requires some { 1 ≤ from.0 }
    requires below { from.0 < next_said list.now }
    requires so_far { AreUndecidedBelow list.now from.0 live.old }
    ensures so_far { IfOk result (λ behind. AreUndecidedBelow list.now behind.0 live.new) }
    ensures later { IfOk result (λ behind. from.0 < behind.0) }
    ensures most { IfOk result (λ behind. behind.0 ≤ next_said list.now) }
{
    let found = list.next_limbo(from);
    if found.0 == list.next().0 {
        return Ok(found);
    }
    match live.enter(found) {
        Ok(()) => {}
        Err(memory) => return Err(memory),
    }
    live.limbo(found);
    Ok(TxNo(found.0 + 1))
}
