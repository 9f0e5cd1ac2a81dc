//! A transaction is committed: its two bits are set, written and settled.

ghost use Rattle.std.specs.Prelude.{◌≡◌, ◌≢◌, ◌<◌, ◌≤◌, ◌/◌, ◌%◌, true, false, Some, length, slice_index_or, slice_set, Err, IfErr, OnErr, OnOk};
ghost use Rattle.mg_base.specs.declared.transaction.TxState.TheVariants.{Committed as CommittedState};
ghost use Rattle.mg_pool.specs.Dirty.{is_dirty as dirty_test};
ghost use Rattle.mg_pool.specs.Fault.{OnlyWrites, TellsFault};
ghost use Rattle.mg_pool.specs.Pool.{IsPool};
ghost use Rattle.mg_pool.specs.Refusal.{LeavesRefused};
ghost use Rattle.mg_pool.specs.declared.fault.PoolFault.{PoolFault as AnyFault};
ghost use Rattle.mg_pool.specs.Run.{HasWritten};
ghost use Rattle.mg_space.specs.Taking.{IsGeometry};
ghost use Rattle.mg_space.specs.View.{pool_answer};
ghost use Rattle.mg_tip.specs.TipPage.{SetsState, places as places_in};
ghost use Rattle.mg_txlist.specs.Ending.{CommitsBits, FailsCommit, FailsToSettle, OnlyWritesSpace, SettlesPage};
ghost use Rattle.mg_txlist.specs.TxList.{EndsIn, IsTxList, KeepsBits, TipsAreBelow, next_said, no_page, tip_in};

use crate::list::{TipPage, TxList};
use mg_base::{Disk, PageNo, TxNo, TxState};
use mg_pool::{PoolFault, stays_careful};
use mg_slots::GREATEST_SIZE;
use mg_space::{FireLinks, SpaceFault, Store, places_of};
use mg_tip::set_state;

impl TxList {
    /// Commits a transaction: sets its two bits on its transaction inventory page, writes that page
    /// after the header, and settles. It takes no memory.
    ///
    /// The transaction is active or in limbo. That its pages were written before is the caller's
    /// concern.
    /// Source: Firebird, a commit sets the bits of the transaction inventory page last.
    ///
    /// # Errors
    ///
    /// `Pool` with `Offline` or `DiskWrite`. The list is then as before; after `DiskWrite` the page
    /// may have the bits on the disk, or not.
    pub fn mark_committed<D: Disk>(
        &mut self,
        store: &mut Store<D>,
        t: TxNo,
    ) -> Result<(), SpaceFault>
        requires list { IsTxList self.old }
        requires pool { IsPool D.meaning store.old }
        requires size { self.old.size ≡ store.old.geometry.size }
        requires tips { TipsAreBelow store.old.geometry.limit self.old }
        requires some { 1 ≤ t.0 }
        requires drawn { t.0 < next_said self.old }

        ensures list { IsTxList self.new }
        ensures pool { IsPool D.meaning store.new }
        ensures geometry { store.new.geometry ≡ store.old.geometry }
        ensures fault { TellsFault D.meaning store.old store.new (pool_answer result) }
        ensures own { OnlyWritesSpace result }
        ensures tips { TipsAreBelow store.old.geometry.limit self.new }
        ensures same { OnErr result (self.new ≡ self.old) }
        ensures ends { OnOk result (EndsIn self.old self.new t.0 CommittedState) }
        ensures commits { OnOk result (CommitsBits D.meaning self.old self.new store.old store.new t.0) }
        ensures fails { (fault : AnyFault) → result ≡ Err (SpaceFault.Pool fault)
            → FailsCommit D.meaning self.old store.old store.new t.0 fault }
    {
        let mut room = [0u8; GREATEST_SIZE];
        let bytes = &mut room[..self.size as usize];
        self.put_bits(t.0, bytes);
        let page = self.page_of_bits(t.0);
        match settle_page(store, page, bytes) {
            Ok(()) => {}
            Err(fault) => return Err(SpaceFault::Pool(fault)),
        }
        self.keep_committed(t.0, bytes);
        Ok(())
    }

    /// The number of the page that has the bits of a transaction.
    fn page_of_bits(&self, t: u32) -> PageNo
        requires list { IsTxList self.now }
        requires drawn { t < next_said self.now }
        ensures page { result.0 ≡ (tip_in self.now (t / places_in self.now.size)).page }
        ensures apart { result.0 ≢ 0 }
    {
        PageNo(self.pages[(t / places_of(self.size)) as usize].page)
    }

    /// Makes the bytes of a transaction's page, with the bits of committed.
    fn put_bits(&self, t: u32, bytes: &mut [u8])
        requires list { IsTxList self.now }
        requires drawn { t < next_said self.now }
        requires whole { length bytes.old ≡ self.now.size }
        ensures { SetsState (tip_in self.now (t / places_in self.now.size)).bytes bytes.new
            (t % places_in self.now.size) CommittedState }
    {
        let places = places_of(self.size);
        let page = &self.pages[(t / places) as usize];
        bytes.copy_from_slice(page.bytes.as_slice());
        set_state(bytes, t % places, TxState::Committed);
    }

    /// Says that a transaction is committed, whose bits were written.
    fn keep_committed(&mut self, t: u32, bytes: &[u8])
        requires list { IsTxList self.old }
        requires some { 1 ≤ t }
        requires drawn { t < next_said self.old }
        requires sets { SetsState (tip_in self.old (t / places_in self.old.size)).bytes bytes.now
            (t % places_in self.old.size) CommittedState }
        ensures list { IsTxList self.new }
        ensures ends { EndsIn self.old self.new t CommittedState }
        ensures keeps { KeepsBits self.old self.new (t / places_in self.old.size) bytes.now }
    {
        let at = (t / places_of(self.size)) as usize;
        keep_bytes(&mut self.pages, at, bytes);
        if t >= self.first {
            self.own[(t - self.first) as usize] = TxState::Committed;
        }
    }
}

/// Puts new bytes into the place of a page's old ones.
fn keep_bytes(pages: &mut Vec<TipPage>, at: usize, bytes: &[u8])
    requires at { at < length pages.old.items }
    requires whole { length bytes.now ≡ length (slice_index_or pages.old.items at no_page).bytes }
    ensures { pages.new.items ≡ slice_set pages.old.items at (record {
      page = (slice_index_or pages.old.items at no_page).page;
      bytes = bytes.now;
    }) }
{
    let page = &mut pages[at];
    page.bytes.overwrite(bytes);
}

/// Changes a page, writes it after the header, and settles.
fn settle_page<D: Disk>(store: &mut Store<D>, page: PageNo, bytes: &[u8]) -> Result<(), PoolFault>
    requires pool { IsPool D.meaning store.old }
    requires whole { length bytes.now ≡ store.old.geometry.size }
    requires below { page.0 < store.old.geometry.limit }
    requires apart { page.0 ≢ 0 }

    ensures pool { IsPool D.meaning store.new }
    ensures geometry { store.new.geometry ≡ store.old.geometry }
    ensures fault { TellsFault D.meaning store.old store.new result }
    ensures own { OnlyWrites result }
    ensures settles { OnOk result
        (SettlesPage D.meaning store.old store.new page bytes.now) }
    ensures fails { IfErr result (FailsToSettle D.meaning store.old store.new page bytes.now) }
{
    match store.change_one(page, bytes, Some(PageNo(0))) {
        Ok(()) => {}
        Err(fault) => return Err(fault),
    }
    match write_out(store, page) {
        Ok(()) => {}
        Err(fault) => return Err(fault),
    }
    store.settle()
}

/// Writes a dirty page, after those that precede it.
fn write_out<D: Disk>(store: &mut Store<D>, page: PageNo) -> Result<(), PoolFault>
    requires pool { IsPool D.meaning store.old }
    requires dirty { dirty_test store.old.dirty page.0 ≡ true }

    ensures pool { IsPool D.meaning store.new }
    ensures geometry { store.new.geometry ≡ store.old.geometry }
    ensures fault { TellsFault D.meaning store.old store.new result }
    ensures own { OnlyWrites result }
    ensures writes { OnOk result (HasWritten D.meaning store.old store.new) }
    ensures out { OnOk result (dirty_test store.new.dirty page.0 ≡ false) }
    ensures refused { LeavesRefused D.meaning store.old store.new result }
{
    stays_careful::<D, FireLinks>();
    match store.write_one(page) {
        Ok(_) => {}
        Err(fault) => return Err(fault),
    }
    while store.is_dirty(page) {
        match store.write_one(page) {
            Ok(_) => {}
            Err(fault) => return Err(fault),
        }
    }
    Ok(())
}
