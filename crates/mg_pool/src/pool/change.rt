//! The change of the pages of a batch at once.

ghost use Rattle.std.specs.Prelude.{◌≡◌, ◌≢◌, ◌<◌, ◌≤◌, ◌+◌, ◌^◌, ◌⊎◌, Err, ℕ, List, [], ◌∷◌, true, None, OnOk, OnErr, MatchResult, length};
ghost use Rattle.mg_careful.specs.Precedence.{Precedes};
ghost use Rattle.mg_careful.specs.Graph.{is_ordered, EntersPage};
ghost use Rattle.mg_pool.specs.Dirty.{content_of, is_dirty as dirty_test, PutsContent};
ghost use Rattle.mg_pool.specs.Batch.{AreBelow, content_in, IsOnce, IsLawful, lists, dirty_with};
ghost use Rattle.mg_pool.specs.Change.{Changes, IsOpen, MakesRoom, EntersOrders, PutsPages, ChangesOverlays};
ghost use Rattle.mg_pool.specs.Fault.{TellsFault, OnlyWrites};
ghost use Rattle.mg_pool.specs.Refusal.{FailsWrites, LeavesRefused};
ghost use Rattle.mg_pool.specs.Run.{HasWritten};
ghost use Rattle.mg_pool.specs.Pool.{IsPool, KeepsPages, LeavesOverlays};

use crate::batch::{Batch, BatchPage};
use crate::fault::PoolFault;
use crate::pool::orders::{first_of, later_of};
use crate::pool::{DIRTY_PAGES, Pool};
use mg_base::{Disk, PageNo};
use mg_careful::{Links, Order};

impl<D: Disk, L: Links> Pool<D, L> {
    /// Changes all pages of a batch at once.
    ///
    /// Pages are written out first, with their old content, in two cases alone. Where an order
    /// would close a cycle with the pool's orders and the batch's earlier ones, every dirty page
    /// that precedes its first page is written. Where the table of dirty pages would overflow, the
    /// least dirty page outside the batch is written with those that precede it, again until the
    /// batch fits. An order whose first page isn't dirty then is kept already.
    ///
    /// # Errors
    ///
    /// `Offline` exactly where an earlier call answered `DiskWrite`; `DiskWrite` only where the
    /// disk's count of faults rose in this call; `Memory`. At `Offline` and `Memory` all is as it
    /// was: pages, orders, marks, the disk. At `DiskWrite` pages may have been written out, as for
    /// the change; no page's content has changed.
    pub fn change(&mut self, batch: Batch) -> Result<(), PoolFault>
        requires pool { IsPool D.meaning self.old }
        requires lawful { IsLawful self.old.geometry.size batch.pages batch.orders }
        requires below { AreBelow self.old.geometry.limit batch.pages }

        ensures pool { IsPool D.meaning self.new }
        ensures fault { TellsFault D.meaning self.old self.new result }
        ensures own { OnlyWrites result ⊎ (result ≡ Err PoolFault.Memory) }
        ensures geometry { self.new.geometry ≡ self.old.geometry }
        ensures changes { OnOk result
            (Changes D.meaning self.old self.new batch.pages batch.orders) }
        ensures same { OnErr result (KeepsPages D.meaning self.old self.new) }
        ensures refused { LeavesRefused D.meaning self.old self.new result }
        ensures frame { OnOk result
            (ChangesOverlays D.meaning (content_in batch.pages) batch.orders self.old self.new) }
        ensures crash { LeavesOverlays D.meaning self.old self.new }
    {
        self.online()?;
        let (pages, orders) = batch.into_parts();
        let mut due = match vec![in self.alloc; false; orders.len()] {
            Ok(due) => due,
            Err(_) => return Err(PoolFault::Memory),
        };
        self.settle_orders(&orders, &mut due)?;
        self.make_room(&pages)?;
        self.put_pages(&pages);
        self.enter_orders(&orders);
        Ok(())
    }

    /// Writes the least dirty page outside a batch with those that precede it, again until the
    /// table of dirty pages has room for the batch.
    fn make_room(&mut self, pages: &Vec<BatchPage>) -> Result<(), PoolFault>
        requires pool { IsPool D.meaning self.old }
        requires online { self.old.offline ≡ None }
        requires once { IsOnce pages.now.items }
        requires few { length pages.now.items ≤ 256 }

        ensures room { MatchResult result (λ _. MakesRoom D.meaning pages.now.items self.old self.new)
            (FailsWrites D.meaning self.old self.new) }
        ensures run { OnOk result (HasWritten D.meaning self.old self.new) }
        ensures fits { OnOk result (dirty_with self.new.dirty pages.now.items ≤ 512) }
    {
        while self.dirty_with(pages) > DIRTY_PAGES as usize {
            // More pages are dirty than the batch has, so there is one outside it.
            let goal = self.dirty.least_outside(pages).unwrap();
            self.write_with(goal)?;
        }
        Ok(())
    }

    /// How many pages would be dirty with those of a batch.
    fn dirty_with(&self, pages: &Vec<BatchPage>) -> usize
        requires { length self.now.dirty.pages + length pages.now.items < 2 ^ 32 }
        ensures { result ≡ dirty_with self.now.dirty pages.now.items }
    {
        let mut count = self.dirty.len();
        for place in 0..pages.len() {
            if !self.is_dirty(PageNo(pages[place].page)) {
                count += 1;
            }
        }
        count
    }

    /// Puts the contents of a batch, for which there is room.
    fn put_pages(&mut self, pages: &Vec<BatchPage>)
        requires pool { IsPool D.meaning self.old }
        requires once { IsOnce pages.now.items }
        requires whole { (page : ℕ) (bytes : List ℕ) → content_in pages.now.items page ≡ Some bytes
            → length bytes ≡ self.old.geometry.size }
        requires below { AreBelow self.old.geometry.limit pages.now.items }
        requires fits { dirty_with self.old.dirty pages.now.items ≤ 512 }
        ensures { PutsPages D.meaning (content_in pages.now.items) self.old self.new }
    {
        for place in 0..pages.len() {
            self.put_page(pages[place].page, pages[place].bytes.as_slice());
        }
    }

    /// Puts the content of one page, for which there is room.
    pub(crate) fn put_page(&mut self, page: u32, bytes: &[u8])
        requires pool { IsPool D.meaning self.old }
        requires whole { length bytes.now ≡ self.old.geometry.size }
        requires below { page < self.old.geometry.limit }
        requires room { content_of self.old.dirty page ≡ None → length self.old.dirty.pages < 512 }

        ensures pool { IsPool D.meaning self.new }
        ensures content { PutsContent self.old.dirty self.new.dirty page bytes.now }
        ensures entered { EntersPage self.old.graph self.new.graph page }
        ensures same { self.new ≡ record self.old {
          dirty = self.new.dirty;
          graph = self.new.graph;
          clean = self.new.clean;
          rooms = self.new.rooms;
        } }
    {
        self.clean.take_out(page);
        self.rooms.forget(page);
        self.dirty.put(page, bytes);
        self.graph.enter(page);
    }

    /// Enters those orders of a batch whose first page is dirty.
    fn enter_orders(&mut self, orders: &Vec<Order>)
        requires pool { IsPool D.meaning self.old }
        requires open { (k : ℕ) → k < length orders.now.items
            → IsOpen self.old.graph orders.now.items k }
        requires acyclic { (page : ℕ) → Precedes (lists orders.now.items) page page → ⊥ }
        requires later { (a b : ℕ) → lists orders.now.items a b ≡ true
            → dirty_test self.old.dirty b ≡ true }
        ensures { EntersOrders D.meaning orders.now.items self.old self.new }
    {
        for place in 0..orders.len() {
            self.enter_order(first_of(orders, place), later_of(orders, place));
        }
    }

    /// Enters the order of a page before a dirty one, if the first page is dirty.
    pub(crate) fn enter_order(&mut self, first: u32, later: u32)
        requires pool { IsPool D.meaning self.old }
        requires apart { first ≢ later }
        requires open { Precedes (is_ordered self.old.graph) later first → ⊥ }
        requires later { dirty_test self.old.dirty later ≡ true }
        ensures { EntersOrders D.meaning (record { first = first; later = later } ∷ [])
            self.old self.new }
    {
        if self.is_dirty(PageNo(first)) {
            self.graph.add(first, later);
        }
    }
}
