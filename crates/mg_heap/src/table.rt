//! The pages of a table are found: its pointer pages and the data pages that they list.

ghost use Rattle.std.specs.Prelude.{◌≡◌, ◌≢◌, ◌≤◌, ◌<◌, ◌^◌, ◌+◌, ◌++◌, ◌↔◌, IfErr, IfOk, IsTrue, MatchResult, OnOk, length};
ghost use Rattle.mg_base.specs.Checks.{PassesAll, verdict};
ghost use Rattle.mg_base.specs.Image.{Image};
ghost use Rattle.mg_image.specs.Tables.{Has};
ghost use Rattle.mg_pointer.specs.PointerPage.{IsPointerPage, entries_of, pointer_checks};
ghost use Rattle.mg_pool.specs.Fault.{TellsFault};
ghost use Rattle.mg_pool.specs.Pool.{IsPool};
ghost use Rattle.mg_pool.specs.Reading.{Fetches};
ghost use Rattle.mg_space.specs.Taking.{IsGeometry};
ghost use Rattle.mg_space.specs.View.{AreWhole, KeepsStore, Tells, pool_answer, viewed};
ghost use Rattle.mg_heap.specs.Reading.{ReadsData};
ghost use Rattle.mg_heap.specs.Reads.{ReadsListed};
ghost use Rattle.mg_heap.specs.Table.{FollowsPage, HoldsPointer, IsLinkDamage, IsTable, LinksTo, ListsPage, RefusesPointer, RefusesPointerPage, RefusesTable, link_damage};

use mg_base::{Bytes, Damaged, Disk, Field, GREATEST_LIMIT, Memory, PageNo, get_u16, get_u32};
use mg_pointer::{COUNT_AT, ENTRIES_AT, ENTRY_LEN, check_pointer, next_of};
use mg_pool::Batch;
use mg_space::{SpaceFault, Store, hold, lent};

/// The pages of a table, in the order of their places.
#[derive(Debug, Drop)]
pub struct TablePages {
    pub pointers: Vec<u32>,
    pub data_pages: Vec<u32>,
}

/// Follows the chain of pointer pages of a table from the first one on. Page 0 stands for none. No
/// pointer page is read twice, and no other page.
///
/// # Errors
///
/// `Damaged` at the first pointer page that is missing, or not as wanted at its place in the chain,
/// or that leads past the last page that a database may have, or back to one of the chain (`Link`).
/// `Pool` with `DiskRead`, `Offline` or `Memory`.
pub fn table_pages<D: Disk>(
    store: &mut Store<D>,
    batch: &Batch,
    owner: PageNo,
) -> Result<TablePages, SpaceFault>
    requires pool { IsPool D.meaning store.old }
    requires geometry { IsGeometry store.old.geometry }
    requires whole { AreWhole store.old.geometry batch.now.pages }
    requires owner { owner.0 < GREATEST_LIMIT }

    ensures keeps { KeepsStore D.meaning store.old store.new }
    ensures fault { TellsFault D.meaning store.old store.new (pool_answer result) }
    ensures own { ReadsData result }
    ensures few { IfOk result (λ table. length table.data_pages.items < 2 ^ 32) }
    ensures short { IfOk result (λ table. length table.pointers.items < 2 ^ 31) }
    ensures some { owner.0 ≢ 0 → IfOk result (λ table. 0 < length table.pointers.items) }
    ensures finds { (image : Image) → Tells D.meaning store.old.disk image → MatchResult result
        (λ table. IsTable (viewed store.old image batch.now) owner.0 table.pointers.items
        table.data_pages.items)
        (RefusesTable D.meaning store.new batch.now.pages (viewed store.old image batch.now)
        owner.0) }
    ensures reads { IfOk result (λ table.
        ReadsListed D.meaning store.old store.new table.pointers.items) }
{
    store.online()?;
    let mut pointers = Vec::new(store.alloc());
    let mut data_pages = Vec::new(store.alloc());
    let mut n = owner;
    while n.0 != 0 {
        n = follow(store, batch, owner, n, &mut pointers, &mut data_pages)?;
    }
    Ok(TablePages {
        pointers,
        data_pages,
    })
}

/// Lists a pointer page behind others, and its entries behind theirs, and tells the next one.
///
/// # Errors
///
/// As `table_pages`, of this page.
pub(crate) fn follow<D: Disk>(
    store: &mut Store<D>,
    batch: &Batch,
    owner: PageNo,
    n: PageNo,
    pointers: &mut Vec<u32>,
    data_pages: &mut Vec<u32>,
) -> Result<PageNo, SpaceFault>
    requires pool { IsPool D.meaning store.old }
    requires geometry { IsGeometry store.old.geometry }
    requires whole { AreWhole store.old.geometry batch.now.pages }
    requires few { length pointers.old.items < 2 ^ 32 }

    ensures keeps { KeepsStore D.meaning store.old store.new }
    ensures fault { TellsFault D.meaning store.old store.new (pool_answer result) }
    ensures own { ReadsData result }
    ensures few { IfOk result (λ next.
        length data_pages.new.items ≤ length data_pages.old.items + 4090) }
    ensures lists { IfOk result (λ next.
        ListsPage pointers.old.items pointers.new.items n.0 next.0) }
    ensures follows { (image : Image) → Tells D.meaning store.old.disk image → MatchResult result
        (λ next. FollowsPage (viewed store.old image batch.now) owner.0 pointers.old.items n.0
        data_pages.old.items data_pages.new.items next.0)
        (RefusesPointer D.meaning store.new batch.now.pages (viewed store.old image batch.now)
        owner.0 pointers.old.items n) }
    ensures reads { Fetches D.meaning store.old store.new n.0 }
{
    hold_pointer(store, batch, owner, n, pointers.len() as u32)?;
    let page = lent(store, batch, n);
    add_entries(page, data_pages)?;
    pointers.push(n.0)?;
    Ok(linked(page, n, pointers)?)
}

/// Makes the pointer page of an owner at a place of its chain readable: `lent` lends its bytes then.
///
/// # Errors
///
/// As `table_pages`, of this page, but for its link.
pub(crate) fn hold_pointer<D: Disk>(
    store: &mut Store<D>,
    batch: &Batch,
    owner: PageNo,
    n: PageNo,
    at: u32,
) -> Result<(), SpaceFault>
    requires pool { IsPool D.meaning store.old }
    requires geometry { IsGeometry store.old.geometry }
    requires whole { AreWhole store.old.geometry batch.now.pages }

    ensures keeps { KeepsStore D.meaning store.old store.new }
    ensures fault { TellsFault D.meaning store.old store.new (pool_answer result) }
    ensures own { ReadsData result }
    ensures held { OnOk result (HoldsPointer store.new batch.now.pages owner.0 at n) }
    ensures seen { (image : Image) → Tells D.meaning store.old.disk image → IfErr result
        (RefusesPointerPage D.meaning store.new batch.now.pages
        (viewed store.old image batch.now n.0) owner.0 at n) }
    ensures reads { Fetches D.meaning store.old store.new n.0 }
{
    hold(store, batch, n)?;
    check_chain_page(lent(store, batch, n), n, owner.0, at)?;
    Ok(())
}

/// A copy of the pointer page of an owner at a place of its chain, for one who changes it.
///
/// # Errors
///
/// As `hold_pointer`.
pub(crate) fn pointer_page<D: Disk>(
    store: &mut Store<D>,
    batch: &Batch,
    owner: PageNo,
    n: PageNo,
    at: u32,
) -> Result<Bytes, SpaceFault>
    requires pool { IsPool D.meaning store.old }
    requires geometry { IsGeometry store.old.geometry }
    requires whole { AreWhole store.old.geometry batch.now.pages }

    ensures keeps { KeepsStore D.meaning store.old store.new }
    ensures fault { TellsFault D.meaning store.old store.new (pool_answer result) }
    ensures own { ReadsData result }
    ensures len { IfOk result (λ b. length b ≡ store.old.geometry.size) }
    ensures below { OnOk result (n.0 < store.old.geometry.limit) }
    ensures tested { IfOk result (λ b. PassesAll (pointer_checks b n.0 owner.0 at)) }
    ensures lawful { IfOk result IsPointerPage }
    ensures seen { (image : Image) → Tells D.meaning store.old.disk image → MatchResult result
        (λ b. b ≡ viewed store.old image batch.now n.0)
        (RefusesPointerPage D.meaning store.new batch.now.pages
        (viewed store.old image batch.now n.0) owner.0 at n) }
    ensures reads { Fetches D.meaning store.old store.new n.0 }
{
    hold_pointer(store, batch, owner, n, at)?;
    let bytes = lent(store, batch, n);
    Ok(Bytes::new(Vec::from_slice(store.alloc(), bytes)?))
}

/// Tests a pointer page, as one that may be read then.
fn check_chain_page(b: &[u8], page: PageNo, owner: u32, at: u32) -> Result<(), Damaged>
    requires least { ENTRIES_AT ≤ length b.now }
    requires most { length b.now ≤ 2 ^ 16 }
    ensures is { result ≡ verdict page (pointer_checks b.now page.0 owner at) }
    ensures tested { OnOk result (PassesAll (pointer_checks b.now page.0 owner at)) }
    ensures lawful { OnOk result (IsPointerPage b.now) }
{
    check_pointer(b, page, owner, at)
}

/// Appends the entries of a pointer page.
#[tactic(auto, unfolding(mg_pointer::specs::PointerPage::entries_of))]
fn add_entries(page: &[u8], data_pages: &mut Vec<u32>) -> Result<(), Memory>
    requires { IsPointerPage page.now }
    ensures { OnOk result (data_pages.new.items ≡ data_pages.old.items ++ entries_of page.now) }
{
    for i in 0..get_u16(page, COUNT_AT) as usize {
        data_pages.push(get_u32(page, ENTRIES_AT + ENTRY_LEN * i))?;
    }
    Ok(())
}

/// The next page of a chain whose last page is `n`, page 0 where there is none.
pub(crate) fn linked(b: &[u8], n: PageNo, pointers: &Vec<u32>) -> Result<PageNo, Damaged>
    requires { IsPointerPage b.now }
    ensures { MatchResult result (λ next. LinksTo b.now pointers.now.items next.0)
        (IsLinkDamage n b.now pointers.now.items) }
{
    let next = next_of(b);
    if next.0 >= GREATEST_LIMIT {
        return Err(wrong_link(n, next, GREATEST_LIMIT - 1));
    }
    if next.0 == 0 {
        return Ok(next);
    }
    if has_number(pointers, next.0) {
        return Err(wrong_link(n, next, 0));
    }
    Ok(next)
}

/// Names a link that leads where it must not.
fn wrong_link(page: PageNo, found: PageNo, wanted: u32) -> Damaged
    ensures { result ≡ link_damage page found.0 wanted }
{
    Damaged {
        page,
        field: Field::Link,
        found: u64::from(found.0),
        wanted: u64::from(wanted),
    }
}

/// Tells whether a number is one of these.
pub(crate) fn has_number(numbers: &[u32], n: u32) -> bool
    ensures { IsTrue result ↔ Has numbers.now n }
{
    let mut rest = numbers;
    while let Some((m, later)) = rest.split_first() {
        if *m == n {
            return true;
        }
        rest = later;
    }
    false
}
