//! What a cache shows of its dirty pages: what they hold, and which is written before which.

ghost use Rattle.std.specs.Prelude.{◌≡◌};
ghost use Rattle.mg_base.specs.MemDisk.{mem_meaning};
ghost use Rattle.mg_pool.specs.Pool.{IsPool};
ghost use Rattle.mg_space.specs.Taking.{IsGeometry};

use crate::deeds::{MOST_ROOM, NOTHING, Past, new_store, play, store_on};
use crate::reading::{Deed, Verb};
use mg_base::{Disk, MemDisk, Memory, PageNo};
use mg_careful::Order;
use mg_space::{SpaceFault, Store};
use std::alloc::Global;

/// The pages of a disk, by their numbers.
pub type Image = Vec<Vec<u8>>;

/// Pages that are changed in the cache and not written yet.
#[derive(Drop)]
pub struct Laid {
    /// The disk below.
    pub disk: Image,
    /// The pages, and what each holds in the cache.
    pub pages: Vec<u32>,
    pub contents: Image,
    /// Which of them is written before which: all pairs.
    pub orders: Vec<Order>,
    /// The root of the tree, 0 where there is none.
    pub tree: u32,
}

/// The page of an image, no bytes where it has none.
pub fn page_at(image: &Image, n: usize) -> &[u8] {
    match image.get(n) {
        Some(bytes) => bytes.as_slice(),
        None => &[],
    }
}

/// Tells whether bytes are all zero.
pub fn is_blank(bytes: &[u8]) -> bool {
    for byte in bytes {
        if *byte != 0 {
            return false;
        }
    }
    true
}

// A page of a disk, no bytes where it is not there.
fn read_page(alloc: Global, disk: &mut MemDisk, page: u32) -> Result<Vec<u8>, Memory> {
    let Ok(size) = disk.page_size() else {
        return Ok(Vec::new(alloc));
    };
    let Ok(pages) = disk.pages() else {
        return Ok(Vec::new(alloc));
    };
    if page >= pages {
        return Ok(Vec::new(alloc));
    }
    let mut bytes = vec![in alloc; 0u8; size as usize]?;
    if disk.read(PageNo(page), &mut bytes).is_err() {
        return Ok(Vec::new(alloc));
    }
    Ok(bytes)
}

// The pages of a disk.
fn image_of(alloc: Global, disk: &mut MemDisk) -> Result<Image, Memory> {
    let mut image = Vec::new(alloc);
    for n in 0..disk.pages().unwrap_or(0) {
        image.push(read_page(alloc, disk, n)?)?;
    }
    Ok(image)
}

/// A disk, and what was made on it.
#[derive(Drop)]
struct Ground {
    disk: MemDisk,
    past: Past,
}

// The disk after deeds. What they leave in the cache is lost.
fn ground_of(alloc: Global, deeds: &[Deed]) -> Result<Ground, SpaceFault> {
    let mut store = new_store(alloc, deeds)?;
    let past = play(&mut store, NOTHING, deeds);
    let disk = store.into_disk();
    match past {
        Ok(past) => Ok(Ground { disk, past }),
        Err(fault) => Err(fault),
    }
}

// How many of the deeds there are up to the last one that has all written.
fn settled(deeds: &[Deed]) -> usize {
    let mut count = 0;
    for (at, deed) in deeds.iter().enumerate() {
        if deed.verb == Verb::Settle {
            count = at + 1;
        }
    }
    count
}

/// What the deeds since the last `% settle` have left in the cache, of a new database.
///
/// Which page is written before which is seen by writing: for each page these deeds are done anew, and what the
/// cache writes up to that page comes before it.
///
/// # Errors
///
/// What a call is refused for.
pub fn lay(alloc: Global, deeds: &[Deed]) -> Result<Laid, SpaceFault> {
    let (before, since) = deeds.split_at(settled(deeds).min(deeds.len()));
    let ground = ground_of(alloc, before)?;
    lay_on(alloc, &ground, since)
}

// What deeds leave in the cache over a disk.
fn lay_on(alloc: Global, ground: &Ground, deeds: &[Deed]) -> Result<Laid, SpaceFault> {
    let shown = show(alloc, ground, deeds)?;
    let orders = orders_of(alloc, ground, deeds, &shown.pages)?;
    Ok(Laid {
        disk: shown.disk,
        pages: shown.pages,
        contents: shown.contents,
        orders,
        tree: ground.past.tree.0,
    })
}

/// A disk, the dirty pages of the cache over it, and what they hold.
#[derive(Drop)]
struct Shown {
    disk: Image,
    pages: Vec<u32>,
    contents: Image,
}

// What deeds leave in the cache, and on the disk: a change may write pages before it is made.
fn show(alloc: Global, ground: &Ground, deeds: &[Deed]) -> Result<Shown, SpaceFault> {
    let mut store = store_on(alloc, &ground.disk)?;
    let left = left_by(&mut store, ground.past, deeds);
    let disk = disk_below(alloc, store);
    let (pages, contents) = left?;
    Ok(Shown {
        disk: disk?,
        pages,
        contents,
    })
}

// The pages that deeds leave in the cache, and what they hold.
fn left_by(
    store: &mut Store<MemDisk>,
    past: Past,
    deeds: &[Deed],
) -> Result<(Vec<u32>, Image), SpaceFault>
    requires pool { IsPool mem_meaning store.old }
    requires geometry { IsGeometry store.old.geometry }
    requires size { store.old.geometry.size ≡ 1024 }
{
    play(store, past, deeds)?;
    let pages = dirty_pages(store)?;
    let contents = contents_of(store, &pages)?;
    Ok((pages, contents))
}

// The pages of the disk below a store, which ends.
fn disk_below(alloc: Global, store: Store<MemDisk>) -> Result<Image, Memory> {
    let mut disk = store.into_disk();
    image_of(alloc, &mut disk)
}

// The dirty pages, in the order of their numbers.
fn dirty_pages(store: &Store<MemDisk>) -> Result<Vec<u32>, Memory> {
    let mut pages = Vec::new(store.alloc());
    for n in 0..MOST_ROOM {
        if store.is_dirty(PageNo(n)) {
            pages.push(n)?;
        }
    }
    Ok(pages)
}

// What these pages hold.
fn contents_of(store: &Store<MemDisk>, pages: &[u32]) -> Result<Image, Memory>
    requires { IsPool mem_meaning store.now }
{
    let mut contents = Vec::new(store.alloc());
    for n in pages {
        contents.push(content_of(store, *n)?)?;
    }
    Ok(contents)
}

// What a page holds.
fn content_of(store: &Store<MemDisk>, page: u32) -> Result<Vec<u8>, Memory>
    requires { IsPool mem_meaning store.now }
{
    match store.bytes(PageNo(page)) {
        Some(bytes) => Ok(Vec::from_slice(store.alloc(), bytes)?),
        None => Ok(Vec::new(store.alloc())),
    }
}

// Which of the pages is written before which.
fn orders_of(
    alloc: Global,
    ground: &Ground,
    deeds: &[Deed],
    pages: &[u32],
) -> Result<Vec<Order>, SpaceFault> {
    let mut orders = Vec::new(alloc);
    for later in pages {
        let firsts = written_before(alloc, ground, deeds, *later)?;
        add_orders(&mut orders, &firsts, *later)?;
    }
    Ok(orders)
}

// Adds the orders of pages before another.
fn add_orders(orders: &mut Vec<Order>, firsts: &[u32], later: u32) -> Result<(), Memory> {
    for first in firsts {
        orders.push(Order {
            first: *first,
            later,
        })?;
    }
    Ok(())
}

// The pages that are written before a page.
fn written_before(
    alloc: Global,
    ground: &Ground,
    deeds: &[Deed],
    page: u32,
) -> Result<Vec<u32>, SpaceFault> {
    let mut store = store_on(alloc, &ground.disk)?;
    play_up_to(&mut store, ground.past, deeds, page)
}

// Does deeds, writes a page after those that come before it, and tells those.
fn play_up_to(
    store: &mut Store<MemDisk>,
    past: Past,
    deeds: &[Deed],
    page: u32,
) -> Result<Vec<u32>, SpaceFault>
    requires pool { IsPool mem_meaning store.old }
    requires geometry { IsGeometry store.old.geometry }
    requires size { store.old.geometry.size ≡ 1024 }
{
    play(store, past, deeds)?;
    write_up_to(store, page)
}

// Writes a page, after those that come before it, and tells those.
fn write_up_to(store: &mut Store<MemDisk>, page: u32) -> Result<Vec<u32>, SpaceFault>
    requires pool { IsPool mem_meaning store.old }
{
    let mut firsts = Vec::new(store.alloc());
    for _ in 0..MOST_ROOM {
        if !store.is_dirty(PageNo(page)) {
            return Ok(firsts);
        }
        let written = store.write_one(PageNo(page))?;
        if written.0 != page {
            firsts.push(written.0)?;
        }
    }
    Ok(firsts)
}

/// The pages that the last deeds have written by themselves, one after another: all deeds but so many.
///
/// They are as if they were in the cache still, above the disk as it was.
///
/// # Errors
///
/// What a call is refused for.
pub fn written(alloc: Global, deeds: &[Deed], before: usize) -> Result<Laid, SpaceFault> {
    let (first, _) = deeds.split_at(before.min(deeds.len()));
    let start = writes_of(alloc, first)?;
    let ground = ground_of(alloc, deeds)?;
    written_on(alloc, &ground.disk, start)
}

// How many page writes a disk has obeyed after deeds.
fn writes_of(alloc: Global, deeds: &[Deed]) -> Result<usize, SpaceFault> {
    let ground = ground_of(alloc, deeds)?;
    Ok(ground.disk.writes())
}

// The pages that a disk has from a page write on, one after another.
fn written_on(alloc: Global, disk: &MemDisk, start: usize) -> Result<Laid, SpaceFault> {
    let pages = pages_since(alloc, disk, start)?;
    let orders = all_orders(alloc, &pages)?;
    raised(alloc, disk, start, pages, orders)
}

/// The pages of a new database, the last one behind all others.
///
/// # Errors
///
/// What a call is refused for.
pub fn made(alloc: Global) -> Result<Laid, SpaceFault> {
    let ground = ground_of(alloc, &[])?;
    made_on(alloc, &ground.disk)
}

// The pages of a disk, the last one behind all others.
fn made_on(alloc: Global, disk: &MemDisk) -> Result<Laid, SpaceFault> {
    let pages = pages_since(alloc, disk, 0)?;
    let mut orders = Vec::new(alloc);
    add_orders_to_last(&mut orders, &pages)?;
    raised(alloc, disk, 0, pages, orders)
}

// Pages that a disk has, as if they were above it as it was after so many page writes.
fn raised(
    alloc: Global,
    disk: &MemDisk,
    start: usize,
    pages: Vec<u32>,
    orders: Vec<Order>,
) -> Result<Laid, SpaceFault> {
    let last = image_after(alloc, disk, disk.writes())?;
    let contents = copies_of(alloc, &last, &pages)?;
    Ok(Laid {
        disk: image_after(alloc, disk, start)?,
        pages,
        contents,
        orders,
        tree: 0,
    })
}

// The image after so many page writes.
fn image_after(alloc: Global, disk: &MemDisk, count: usize) -> Result<Image, Memory> {
    if count > disk.writes() || count > 100_000 {
        return Ok(Vec::new(alloc));
    }
    let mut copy = disk.after(alloc, count as u32, 0)?;
    image_of(alloc, &mut copy)
}

// The pages that were written from a page write on.
fn pages_since(alloc: Global, disk: &MemDisk, start: usize) -> Result<Vec<u32>, Memory> {
    let mut pages = Vec::new(alloc);
    for count in start..disk.writes() {
        if let Some(page) = written_by(alloc, disk, count)? {
            pages.push(page)?;
        }
    }
    Ok(pages)
}

// The page that the page write behind so many others changed.
fn written_by(alloc: Global, disk: &MemDisk, count: usize) -> Result<Option<u32>, Memory> {
    let old = image_after(alloc, disk, count)?;
    let new = image_after(alloc, disk, count.saturating_add(1))?;
    Ok(changed_page(&old, &new))
}

// The first page that differs between two images.
fn changed_page(old: &Image, new: &Image) -> Option<u32> {
    for n in 0..MOST_ROOM {
        if !are_same(page_at(old, n as usize), page_at(new, n as usize)) {
            return Some(n);
        }
    }
    None
}

// Tells whether two pages are the same. One that is not there is as one of zeros.
fn are_same(one: &[u8], other: &[u8]) -> bool {
    if is_blank(one) {
        return is_blank(other);
    }
    one == other
}

// Copies of some pages of an image.
fn copies_of(alloc: Global, image: &Image, pages: &[u32]) -> Result<Image, Memory> {
    let mut copies = Vec::new(alloc);
    for n in pages {
        copies.push(Vec::from_slice(alloc, page_at(image, *n as usize))?)?;
    }
    Ok(copies)
}

// The orders of pages that are written one after another: each comes after all before it.
fn all_orders(alloc: Global, pages: &[u32]) -> Result<Vec<Order>, Memory> {
    let mut orders = Vec::new(alloc);
    for count in 1..pages.len().saturating_add(1) {
        if let Some(front) = pages.get(..count) {
            add_orders_to_last(&mut orders, front)?;
        }
    }
    Ok(orders)
}

// Adds the orders of all pages but the last before that.
fn add_orders_to_last(orders: &mut Vec<Order>, pages: &[u32]) -> Result<(), Memory> {
    match pages.split_last() {
        Some((later, firsts)) => add_orders(orders, firsts, *later),
        None => Ok(()),
    }
}
