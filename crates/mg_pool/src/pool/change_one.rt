//! The change of one page, which is refused for no want of memory.

ghost use Rattle.std.specs.Prelude.{◌≡◌, ◌≢◌, ◌<◌, ◌≤◌, ℕ, List, true, Some, None, OnOk, OnErr, MatchResult, length};
ghost use Rattle.std.specs.Option.{ForSome};
ghost use Rattle.mg_careful.specs.Precedence.{Precedes};
ghost use Rattle.mg_careful.specs.Graph.{is_ordered};
ghost use Rattle.mg_pool.specs.Dirty.{is_dirty as dirty_test};
ghost use Rattle.mg_pool.specs.Batch.{content_in, orders_of, dirty_with, one_page};
ghost use Rattle.mg_pool.specs.Change.{Changes, MakesRoom, EntersOrders, SettlesOrders, ChangesOverlays};
ghost use Rattle.mg_pool.specs.Fault.{TellsFault, OnlyWrites};
ghost use Rattle.mg_pool.specs.Refusal.{FailsWrites, LeavesRefused};
ghost use Rattle.mg_pool.specs.Run.{HasWritten};
ghost use Rattle.mg_pool.specs.Pool.{IsPool, KeepsPages, LeavesOverlays};

use crate::fault::PoolFault;
use crate::pool::Pool;
use mg_base::{Disk, PageNo};
use mg_careful::Links;

impl<D: Disk, L: Links> Pool<D, L> {
    /// Changes one page, as `change` does a batch of this page alone and, where `first` is given,
    /// the order of `first` before it. It is refused for no want of memory.
    ///
    /// # Errors
    ///
    /// `Offline` exactly where an earlier call answered `DiskWrite`, and then all is as it was;
    /// `DiskWrite` only where the disk's count of faults rose in this call. Pages may have been
    /// written out then, as for the change; no page's content has changed.
    pub fn change_one(
        &mut self,
        page: PageNo,
        bytes: &[u8],
        first: Option<PageNo>,
    ) -> Result<(), PoolFault>
        requires pool { IsPool D.meaning self.old }
        requires whole { length bytes.now ≡ self.old.geometry.size }
        requires below { page.0 < self.old.geometry.limit }
        requires apart { first ≢ Some page }

        ensures pool { IsPool D.meaning self.new }
        ensures fault { TellsFault D.meaning self.old self.new result }
        ensures own { OnlyWrites result }
        ensures geometry { self.new.geometry ≡ self.old.geometry }
        ensures changes { OnOk result (Changes D.meaning self.old self.new
            (one_page page.0 bytes.now) (orders_of first page)) }
        ensures same { OnErr result (KeepsPages D.meaning self.old self.new) }
        ensures refused { LeavesRefused D.meaning self.old self.new result }
        ensures frame { OnOk result (ChangesOverlays D.meaning
            (content_in (one_page page.0 bytes.now)) (orders_of first page) self.old self.new) }
        ensures crash { LeavesOverlays D.meaning self.old self.new }
    {
        self.online()?;
        self.settle_one(page, first)?;
        self.make_room_for_one(page)?;
        self.put_page(page.0, bytes);
        self.enter_one(page, first);
        Ok(())
    }

    /// Writes what the order of `first` before a page wants to be written before it is entered.
    fn settle_one(&mut self, page: PageNo, first: Option<PageNo>) -> Result<(), PoolFault>
        requires pool { IsPool D.meaning self.old }
        requires online { self.old.offline ≡ None }
        requires apart { first ≢ Some page }

        ensures settles { MatchResult result (λ _. SettlesOrders D.meaning (orders_of first page)
            self.old (length (orders_of first page)) self.new)
            (FailsWrites D.meaning self.old self.new) }
        ensures run { OnOk result (HasWritten D.meaning self.old self.new) }
        ensures open { OnOk result (ForSome first
            (λ f. Precedes (is_ordered self.new.graph) page.0 f.0 → ⊥)) }
    {
        if let Some(first) = first {
            if self.graph.would_cycle(first.0, page.0) {
                self.write_predecessors(first.0)?;
            }
        }
        Ok(())
    }

    /// Makes room in the table of dirty pages for one page more: where there is none, the least
    /// dirty page is written with those that precede it.
    fn make_room_for_one(&mut self, page: PageNo) -> Result<(), PoolFault>
        requires pool { IsPool D.meaning self.old }
        requires online { self.old.offline ≡ None }

        ensures room { MatchResult result (λ _. (bytes : List ℕ)
            → MakesRoom D.meaning (one_page page.0 bytes) self.old self.new)
            (FailsWrites D.meaning self.old self.new) }
        ensures run { OnOk result (HasWritten D.meaning self.old self.new) }
        ensures fits { OnOk result ((bytes : List ℕ)
            → dirty_with self.new.dirty (one_page page.0 bytes) ≤ 512) }
    {
        if self.is_dirty(page) || self.dirty.has_room() {
            return Ok(());
        }
        let goal = self.dirty.least().unwrap();
        self.write_with(goal)
    }

    /// Enters the order of `first` before a dirty page, if `first` is dirty.
    fn enter_one(&mut self, page: PageNo, first: Option<PageNo>)
        requires pool { IsPool D.meaning self.old }
        requires apart { first ≢ Some page }
        requires open { ForSome first (λ f. Precedes (is_ordered self.old.graph) page.0 f.0 → ⊥) }
        requires dirty { dirty_test self.old.dirty page.0 ≡ true }
        ensures { EntersOrders D.meaning (orders_of first page) self.old self.new }
    {
        if let Some(first) = first {
            self.enter_order(first.0, page.0);
        }
    }
}
