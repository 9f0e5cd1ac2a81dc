//! A page is taken: the least one that the page inventory has as free.

ghost use Rattle.std.specs.Prelude.{◌≡◌, ◌≢◌, ◌<◌, ◌≤◌, ◌^◌, ◌*◌, ◌+◌, ◌/◌, ◌%◌, ◌-◌, ◌↔◌, IfErr, IfOk, IfSome, IsTrue, MatchOption, MatchResult, OnErr, OnOk, length, true, ℕ};
ghost use Rattle.mg_base.specs.Checks.{PassesAll};
ghost use Rattle.mg_base.specs.Geometry.{is_page_size};
ghost use Rattle.mg_base.specs.Image.{Image, blank};
ghost use Rattle.mg_image.specs.Inventory.{inventory_page as page_of_region};
ghost use Rattle.mg_pip.specs.PipPage.{AllUsed, bits as bits_of_size, pip_checks};
ghost use Rattle.mg_pool.specs.Fault.{TellsFault};
ghost use Rattle.mg_pool.specs.Pool.{IsPool};
ghost use Rattle.mg_space.specs.Taking.{IsGeometry, IsMarked, IsReady, IsRegionDamage, MarksFixed, PutsInventory, RefusesRegion, RefusesTake, SetsFixed, TakesBit, TakesInRegion, TakesPage, taking_limit as limit_of};
ghost use Rattle.mg_space.specs.View.{AreWhole, KeepsStore, ReadsAlone, Tells, pool_answer, viewed};

use crate::fault::SpaceFault;
use crate::links::Store;
use crate::reading::{Found, find_page};
use mg_base::{Damaged, Disk, GREATEST_LIMIT, Geometry, PageNo};
use mg_pip::{BITS_AT, check_pip, first_free, new_pip, set_used};
use mg_pool::{Batch, PoolFault};

/// How many pages a page inventory page tells of: eight to a byte.
pub fn region_len(size: u32) -> u32
    requires { is_page_size size ≡ true }
    ensures { result ≡ bits_of_size size }
{
    8 * (size - BITS_AT as u32)
}

/// The page inventory page that has the bit of a page. A caller orders it before each page that
/// comes to point to a page that was taken.
pub fn inventory_page_of(size: u32, page: PageNo) -> PageNo
    requires size { is_page_size size ≡ true }
    requires page { page.0 < 2 ^ 31 }
    ensures { result.0 ≡ page_of_region size (page.0 / bits_of_size size) }
{
    let bits = region_len(size);
    PageNo(page.0 / bits * bits + 1)
}

/// Takes a page: the least free number below the page limit of the file, and below 131,072. In the batch its inventory
/// page, which is made where it is blank, has its bit then, and those of the pages of its region
/// that are never handed out. No other page is put, and no order is added.
///
/// Never free are the header page, the inventory pages, and each page whose inventory page does
/// not lie below the limit.
/// Source: Firebird ODS, page inventory page.
///
/// # Errors
///
/// `Full`, with the page limit, exactly where no such number is free; `Damaged` at the first inventory page
/// that differs from what is wanted of it, before which no page is free; `Pool` with `DiskRead`,
/// `Offline` or `Memory`. The batch is then as before.
pub fn take_page<D: Disk>(store: &mut Store<D>, batch: &mut Batch) -> Result<PageNo, SpaceFault>
    requires pool { IsPool D.meaning store.old }
    requires geometry { IsGeometry store.old.geometry }
    requires whole { AreWhole store.old.geometry batch.old.pages }

    ensures keeps { KeepsStore D.meaning store.old store.new }
    ensures fault { TellsFault D.meaning store.old store.new (pool_answer result) }
    ensures own { ReadsAlone result }
    ensures puts { IfOk result (λ page.
        PutsInventory store.old.geometry batch.old batch.new page.0) }
    ensures same { OnErr result (batch.new ≡ batch.old) }
    ensures takes { (image : Image) → Tells D.meaning store.old.disk image → MatchResult result
        (λ page. TakesPage store.old.geometry (viewed store.old image batch.old)
        (viewed store.old image batch.new) page.0)
        (RefusesTake store.old.geometry (viewed store.old image batch.old)) }
{
    store.online()?;
    let geometry = store.geometry();
    let bits = region_len(geometry.size);
    for region in 0..regions_below(geometry) {
        if let Some(page) = take_in(store, batch, bits, region)? {
            return Ok(page);
        }
    }
    Err(SpaceFault::Full {
        limit: geometry.limit,
    })
}

/// How many regions have their inventory page below the limit.
fn regions_below(geometry: Geometry) -> u32
    requires { IsGeometry geometry }
    ensures { (region : ℕ) → (region < result ↔ (page_of_region geometry.size region < limit_of geometry)) }
{
    let bits = region_len(geometry.size);
    let limit = taking_limit(geometry);
    if limit < 2 { 0 } else { (limit - 2) / bits + 1 }
}

/// Below which number pages are taken: the page limit of the file, and at most that of every database.
fn taking_limit(geometry: Geometry) -> u32
    ensures { result ≡ limit_of geometry }
{
    geometry.limit.min(GREATEST_LIMIT)
}

/// Takes the least free page of a region, none where it has none.
fn take_in<D: Disk>(
    store: &mut Store<D>,
    batch: &mut Batch,
    bits: u32,
    region: u32,
) -> Result<Option<PageNo>, SpaceFault>
    requires pool { IsPool D.meaning store.old }
    requires geometry { IsGeometry store.old.geometry }
    requires whole { AreWhole store.old.geometry batch.old.pages }
    requires bits { bits ≡ bits_of_size store.old.geometry.size }
    requires below { page_of_region store.old.geometry.size region < limit_of store.old.geometry }

    ensures keeps { KeepsStore D.meaning store.old store.new }
    ensures fault { TellsFault D.meaning store.old store.new (pool_answer result) }
    ensures own { ReadsAlone result }
    ensures puts { IfOk result (λ taken. IfSome taken (λ page.
        PutsInventory store.old.geometry batch.old batch.new page.0)) }
    ensures none { IfOk result (λ taken. MatchOption taken (batch.new ≡ batch.old)
        (λ page. Unit {0})) }
    ensures same { OnErr result (batch.new ≡ batch.old) }
    ensures takes { (image : Image) → Tells D.meaning store.old.disk image → MatchResult result
        (λ taken. TakesInRegion store.old.geometry region (viewed store.old image batch.old)
        (viewed store.old image batch.new) taken)
        (RefusesRegion store.old.geometry region (viewed store.old image batch.old)) }
{
    let geometry = store.geometry();
    let at = PageNo(region * bits + 1);
    let mut page = inventory_of(store, batch, at, region)?;
    // The last region of the file may end before its inventory page's last bit.
    let below = bits.min(taking_limit(geometry) - region * bits);
    let Some(bit) = take_bit(&mut page, below) else {
        return Ok(None);
    };
    batch.put(at, &page)?;
    Ok(Some(PageNo(region * bits + bit)))
}

/// Sets the least clear bit of an inventory page below a bound, none where each is set.
fn take_bit(page: &mut [u8], below: u32) -> Option<u32>
    requires page { BITS_AT ≤ length page.old }
    requires below { below ≤ bits_of_size (length page.old) }
    ensures bit { MatchOption result (AllUsed page.old below)
        (λ bit. TakesBit below page.old page.new bit) }
    ensures len { length page.new ≡ length page.old }
{
    let bit = first_free(page, below)?;
    set_used(page, bit, true);
    Some(bit)
}

/// The inventory page of a region, made where it is blank, with the bits of the pages that are
/// never handed out.
fn inventory_of<D: Disk>(
    store: &mut Store<D>,
    batch: &Batch,
    at: PageNo,
    region: u32,
) -> Result<Vec<u8>, SpaceFault>
    requires pool { IsPool D.meaning store.old }
    requires geometry { IsGeometry store.old.geometry }
    requires whole { AreWhole store.old.geometry batch.now.pages }
    requires at { at.0 ≡ page_of_region store.old.geometry.size region }

    ensures keeps { KeepsStore D.meaning store.old store.new }
    ensures fault { TellsFault D.meaning store.old store.new (pool_answer result) }
    ensures own { ReadsAlone result }
    ensures len { IfOk result (λ page. length page.items ≡ store.old.geometry.size) }
    ensures fixed { IfOk result (λ page. IsMarked region page.items) }
    ensures seen { (image : Image) → Tells D.meaning store.old.disk image → MatchResult result
        (λ page. MarksFixed (page_of_region store.old.geometry.size region) region
        (viewed store.old image batch.now (page_of_region store.old.geometry.size region)) page.items)
        (RefusesRegion store.old.geometry region (viewed store.old image batch.now)) }
{
    let mut page = match find_page(store, batch, at)? {
        Found::Page(bytes) => bytes.into_vec(),
        Found::Absent { .. } => blank_page(store)?,
    };
    mark_fixed(&mut page, at, region)?;
    Ok(page)
}

/// A page of zeros.
fn blank_page<D: Disk>(store: &Store<D>) -> Result<Vec<u8>, SpaceFault>
    ensures page { IfOk result (λ page. page.items ≡ blank store.now.geometry.size) }
    ensures memory { IfErr result (λ fault. fault ≡ SpaceFault.Pool PoolFault.Memory) }
{
    let size = store.geometry().size as usize;
    Ok(vec![in store.alloc(); 0u8; size]?)
}

/// Marks the pages of a region as used that are never handed out: its inventory page, and in the
/// first region the header page. A blank inventory page is made first.
fn mark_fixed(page: &mut [u8], at: PageNo, region: u32) -> Result<(), Damaged>
    requires { 1024 ≤ length page.old }
    ensures marks { OnOk result (MarksFixed at.0 region page.old page.new) }
    ensures damaged { IfErr result (IsRegionDamage at region page.old) }
    ensures len { length page.new ≡ length page.old }
{
    make_ready(page, at, region)?;
    set_fixed(page, region);
    Ok(())
}

/// Tests an inventory page, or makes it where it is blank.
fn make_ready(page: &mut [u8], at: PageNo, region: u32) -> Result<(), Damaged>
    requires { 1024 ≤ length page.old }
    ensures ready { OnOk result (IsReady at.0 region page.old page.new) }
    ensures damaged { IfErr result (IsRegionDamage at region page.old) }
    ensures len { length page.new ≡ length page.old }
{
    if is_blank(page) {
        new_pip(page, at, region);
        Ok(())
    } else {
        check_pip(page, at, region)
    }
}

/// Sets the bits of the pages of a region that are never handed out.
fn set_fixed(page: &mut [u8], region: u32)
    requires { 1024 ≤ length page.old }
    ensures { SetsFixed region page.old page.new }
{
    set_used(page, 1, true);
    if region == 0 {
        set_used(page, 0, true);
    }
}

/// Tells whether every byte of a page is 0.
fn is_blank(page: &[u8]) -> bool
    ensures { IsTrue result ↔ (page.now ≡ blank (length page.now)) }
{
    page.iter().all(|byte| *byte == 0)
}
