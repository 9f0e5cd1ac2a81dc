//! A batch: pages that are to be changed at once, with their new contents and the orders of writes.

ghost use Rattle.std.specs.Prelude.{◌≡◌, ◌≢◌, ◌<◌, ◌++◌, ◌∷◌, [], ℕ, length, IfOk, IfSome, IfNone, OnOk, OnErr, slice_index_or};
ghost use Rattle.std.specs.Option.{option_copied};
ghost use Rattle.mg_pool.specs.Batch.{content_in, is_in, PutsPage, IsOnce};
ghost use Rattle.mg_pool.specs.declared.batch.BatchPage.{BatchPage};

use mg_base::{Bytes, Memory, PageNo};
use mg_careful::Order;
use std::alloc::Global;
use std::marker::Model;

/// How many pages a batch may change at once: half of those that may be dirty, so that room for it
/// can be made by writing pages outside it.
pub const BATCH_PAGES: usize = 256;

mod lawful;

/// A page that is to be changed, with its new content.
#[derive(Drop)]
pub struct BatchPage {
    pub page: u32,
    pub bytes: Bytes,
}

/// The pages that are to be changed at once, each with its new content, and which page has to reach
/// the disk before which.
#[derive(Drop)]
pub struct Batch {
    alloc: Global,
    pages: Vec<BatchPage>,
    orders: Vec<Order>,
}

impl Model for Batch {
    ghost use Rattle.mg_pool.specs.Batch.{Changed, IsOnce};

    ghost Value = { Changed };

    ghost view = { λ b. record { pages = b.pages.items; orders = b.orders.items } };

    ghost invariant = { λ b. IsOnce b.pages.items };
}

impl Batch {
    /// A batch without pages and orders.
    pub fn new(alloc: Global) -> Batch
        ensures pages { result.pages ≡ [] }
        ensures orders { result.orders ≡ [] }
    {
        Batch {
            alloc,
            pages: Vec::new(alloc),
            orders: Vec::new(alloc),
        }
    }

    /// Gives a page this content, in place of the one that was put before.
    ///
    /// # Errors
    ///
    /// `Memory` only. The batch is then as before.
    pub fn put(&mut self, page: PageNo, bytes: &[u8]) -> Result<(), Memory>
        ensures puts { OnOk result (PutsPage self.old self.new page.0 bytes.now) }
        ensures same { OnErr result (self.new ≡ self.old) }
    {
        let content = copy_of(self.alloc, bytes)?;
        if let Some(place) = find(&self.pages, page.0) {
            self.pages[place] = BatchPage {
                page: page.0,
                bytes: content,
            };
            return Ok(());
        }
        self.pages.push(BatchPage {
            page: page.0,
            bytes: content,
        })?;
        Ok(())
    }

    /// The content that was put last, none where none was put.
    pub fn bytes(&self, page: PageNo) -> Option<&[u8]>
        ensures { option_copied result ≡ content_in self.now.pages page.0 }
    {
        let place = find(&self.pages, page.0)?;
        Some(self.pages[place].bytes.as_slice())
    }

    /// Adds an order: its first page has to reach the disk before the new content of its later one.
    ///
    /// # Errors
    ///
    /// `Memory` only. The batch is then as before.
    pub fn order(&mut self, o: Order) -> Result<(), Memory>
        ensures pages { self.new.pages ≡ self.old.pages }
        ensures orders { OnOk result (self.new.orders ≡ self.old.orders ++ o ∷ []) }
        ensures same { OnErr result (self.new ≡ self.old) }
    {
        self.orders.push(o)?;
        Ok(())
    }

    /// The pages with their contents, and the orders.
    pub(crate) fn into_parts(self) -> (Vec<BatchPage>, Vec<Order>)
        ensures pages { result.0.items ≡ self.pages }
        ensures orders { result.1.items ≡ self.orders }
        ensures once { IsOnce self.pages }
    {
        let Batch { pages, orders, .. } = self;
        (pages, orders)
    }
}

/// A copy of these bytes.
fn copy_of(alloc: Global, bytes: &[u8]) -> Result<Bytes, Memory>
    ensures { IfOk result (λ b. b ≡ bytes.now) }
{
    Ok(Bytes::new(Vec::from_slice(alloc, bytes)?))
}

/// Tells whether a page is in a batch.
pub(crate) fn has_page(pages: &Vec<BatchPage>, page: u32) -> bool
    ensures { result ≡ is_in pages.now.items page }
{
    find(pages, page).is_some()
}

/// The place of a page in a batch.
fn find(pages: &Vec<BatchPage>, page: u32) -> Option<usize>
    ensures found { IfSome result (λ i. (i < length pages.now.items)
        × ((d : BatchPage) → (slice_index_or pages.now.items i d).page ≡ page)) }
    ensures first { IfSome result (λ i. (k : ℕ) (d : BatchPage) → k < i
        → (slice_index_or pages.now.items k d).page ≢ page) }
    ensures absent { IfNone result ((i : ℕ) (d : BatchPage) → i < length pages.now.items
        → (slice_index_or pages.now.items i d).page ≢ page) }
{
    for (i, d) in pages.iter().enumerate() {
        if d.page == page {
            return Some(i);
        }
    }
    None
}
