//! The test of a batch: whether the cache may change its pages.

ghost use Rattle.std.specs.Prelude.{◌≡◌, ◌<◌, ◌≤◌, ◌↔◌, ℕ, true, false, IsTrue, IfSome, IfNone, length, slice_index_or};
ghost use Rattle.mg_pool.specs.Batch.{IsLawful, IsOnce};
ghost use Rattle.mg_pool.specs.Lawful.{page_in, AreLong, HasLater, HasNoCycle, IsWaiting, IsFree, MarksFree};

use crate::batch::{BATCH_PAGES, Batch, BatchPage, has_page};
use crate::pool::orders::{first_of, later_of};
use mg_careful::Order;

impl Batch {
    /// Tells whether the batch is lawful for pages of `size` bytes: it has at most 256 pages, each
    /// content is one page long, the later page of each order is in it, and its orders have no
    /// cycle among themselves.
    ///
    /// It takes no memory. For `n` pages and `m` orders it takes up to `n * n * (n + m)` steps.
    pub fn is_lawful(&self, size: u32) -> bool
        ensures { IsTrue result ↔ IsLawful size self.now.pages self.now.orders }
    {
        if self.pages.len() > BATCH_PAGES || !are_long(&self.pages, size) {
            return false;
        }
        has_each_later(&self.pages, &self.orders) && has_no_cycle(&self.pages, &self.orders)
    }
}

/// Tells whether each content is `size` bytes long.
fn are_long(pages: &Vec<BatchPage>, size: u32) -> bool
    ensures { IsTrue result ↔ AreLong size pages.now.items }
{
    for place in 0..pages.len() {
        if pages[place].bytes.len() != size as usize {
            return false;
        }
    }
    true
}

/// Tells whether the later page of each order is in the batch.
fn has_each_later(pages: &Vec<BatchPage>, orders: &Vec<Order>) -> bool
    ensures { IsTrue result ↔ HasLater pages.now.items orders.now.items }
{
    for place in 0..orders.len() {
        if !has_page(pages, later_of(orders, place)) {
            return false;
        }
    }
    true
}

/// Tells whether no page precedes itself by these orders.
fn has_no_cycle(pages: &Vec<BatchPage>, orders: &Vec<Order>) -> bool
    requires few { length pages.now.items ≤ BATCH_PAGES }
    requires later { HasLater pages.now.items orders.now.items }
    ensures { IsTrue result ↔ HasNoCycle orders.now.items }
{
    let mut marks = [false; BATCH_PAGES];
    mark_free(pages, orders, &mut marks);
    are_marked(pages, &marks)
}

/// Marks pages that don't precede themselves, as many as can be.
fn mark_free(pages: &Vec<BatchPage>, orders: &Vec<Order>, marks: &mut [bool])
    requires room { length pages.now.items ≤ length marks.old }
    requires blank { (i : ℕ) → slice_index_or marks.old i false ≡ false }
    requires later { HasLater pages.now.items orders.now.items }
    ensures len { length marks.new ≡ length marks.old }
    ensures marks { MarksFree pages.now.items orders.now.items marks.new }
{
    while let Some(place) = next_free(pages, orders, marks) {
        marks[place] = true;
    }
}

/// The first place without mark whose page is free.
fn next_free(pages: &Vec<BatchPage>, orders: &Vec<Order>, marks: &[bool]) -> Option<usize>
    requires room { length pages.now.items ≤ length marks.now }
    ensures some { IfSome result (λ i. (i < length pages.now.items)
        × (slice_index_or marks.now i false ≡ false)
        × IsFree pages.now.items orders.now.items marks.now (page_in pages.now.items i)) }
    ensures none { IfNone result ((i : ℕ) → i < length pages.now.items
        → slice_index_or marks.now i false ≡ false
        → IsFree pages.now.items orders.now.items marks.now (page_in pages.now.items i) → ⊥) }
{
    for place in 0..pages.len() {
        if !marks[place] && is_free(pages, orders, marks, pages[place].page) {
            return Some(place);
        }
    }
    None
}

/// Tells whether no page that waits is ordered before this one.
fn is_free(pages: &Vec<BatchPage>, orders: &Vec<Order>, marks: &[bool], page: u32) -> bool
    requires room { length pages.now.items ≤ length marks.now }
    ensures { IsTrue result ↔ IsFree pages.now.items orders.now.items marks.now page }
{
    for place in 0..orders.len() {
        if later_of(orders, place) == page && is_waiting(pages, marks, first_of(orders, place)) {
            return false;
        }
    }
    true
}

/// Tells whether a page stands in the batch at a place without mark.
fn is_waiting(pages: &Vec<BatchPage>, marks: &[bool], page: u32) -> bool
    requires room { length pages.now.items ≤ length marks.now }
    ensures { IsTrue result ↔ IsWaiting pages.now.items marks.now page }
{
    for place in 0..pages.len() {
        if pages[place].page == page && !marks[place] {
            return true;
        }
    }
    false
}

/// Tells whether each page of the batch is marked.
fn are_marked(pages: &Vec<BatchPage>, marks: &[bool]) -> bool
    requires room { length pages.now.items ≤ length marks.now }
    ensures { IsTrue result ↔ ((i : ℕ) → i < length pages.now.items
        → slice_index_or marks.now i false ≡ true) }
{
    for place in 0..pages.len() {
        if !marks[place] {
            return false;
        }
    }
    true
}
