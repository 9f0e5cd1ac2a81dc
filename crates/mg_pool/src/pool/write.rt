//! Page writes: one page, those that precede a page, a page with those that precede it.

ghost use Rattle.std.specs.Prelude.{◌≡◌, ◌<◌, ◌⊎◌, ℕ, List, true, false, Some, None, IfSome, OnOk, MatchResult, length};
ghost use Rattle.mg_careful.specs.Graph.{is_ordered};
ghost use Rattle.mg_pool.specs.Clean.{kept_in};
ghost use Rattle.mg_pool.specs.Dirty.{content_of, is_dirty as dirty_test};
ghost use Rattle.mg_pool.specs.Run.{WritesPage, WritesBefore, WritesWith};
ghost use Rattle.mg_pool.specs.Refusal.{FailsWrite, FailsWrites};
ghost use Rattle.mg_pool.specs.Pool.{IsPool};

use crate::clean::CleanTable;
use crate::fault::PoolFault;
use crate::pool::{Pool, count_fault};
use crate::tested::Tested;
use mg_base::{Disk, PageNo};
use mg_careful::Links;

impl<D: Disk, L: Links> Pool<D, L> {
    /// Writes a dirty page with those that precede it, each after those that precede it. A page
    /// that isn't dirty is left alone.
    pub(crate) fn write_with(&mut self, goal: u32) -> Result<(), PoolFault>
        requires pool { IsPool D.meaning self.old }
        requires online { self.old.offline ≡ None }

        ensures with { MatchResult result (λ _. WritesWith D.meaning goal self.old self.new)
            (FailsWrites D.meaning self.old self.new) }
        ensures less { OnOk result (dirty_test self.old.dirty goal ≡ true
            → length self.new.dirty.pages < length self.old.dirty.pages) }
    {
        if !self.is_dirty(PageNo(goal)) {
            return Ok(());
        }
        self.write_predecessors(goal)?;
        self.write_out(goal)
    }

    /// Writes every dirty page that precedes a page, each after those that precede it.
    pub(crate) fn write_predecessors(&mut self, goal: u32) -> Result<(), PoolFault>
        requires pool { IsPool D.meaning self.old }
        requires online { self.old.offline ≡ None }

        ensures { MatchResult result (λ _. WritesBefore D.meaning goal self.old self.new)
            (FailsWrites D.meaning self.old self.new) }
    {
        while let Some(page) = self.graph.first_ready(goal)
            && page != goal
        {
            self.write_out(page)?;
        }
        Ok(())
    }

    /// Writes a dirty page that no page precedes.
    pub(crate) fn write_out(&mut self, page: u32) -> Result<(), PoolFault>
        requires pool { IsPool D.meaning self.old }
        requires online { self.old.offline ≡ None }
        requires dirty { dirty_test self.old.dirty page ≡ true }
        requires ready { (q : ℕ) → is_ordered self.old.graph q page ≡ false }

        ensures { MatchResult result (λ _. WritesPage D.meaning self.old self.new page)
            (FailsWrite D.meaning self.old self.new) }
    {
        let copy = self.copy_of(page);
        if let Some(bytes) = self.dirty.content(page) {
            match self.disk.write(PageNo(page), bytes) {
                Ok(()) => {
                    self.dirty.take_out(page);
                    self.graph.clear(page);
                    keep(&mut self.clean, page, copy);
                }
                Err(_) => {
                    let faults = count_fault(&mut self.faults);
                    self.offline = Some(faults);
                    return Err(PoolFault::DiskWrite { faults });
                }
            }
        }
        Ok(())
    }

    /// A copy of a dirty page, which is to stay as a clean one: none where there is no memory for
    /// it, or where the disk has not told yet how many pages it has.
    fn copy_of(&self, page: u32) -> Option<Tested<L>>
        ensures content { IfSome result (λ b. content_of self.now.dirty page ≡ Some b) }
        ensures counted { IfSome result (λ _. self.now.counted ≡ true) }
    {
        if !self.counted {
            return None;
        }
        match self.dirty.tested(page)?.copy(self.alloc) {
            Ok(copy) => Some(copy),
            Err(_) => None,
        }
    }
}

/// Keeps the content of a page that was written as that of a clean one, where there is memory.
fn keep<L: Links>(clean: &mut CleanTable<L>, page: u32, content: Option<Tested<L>>)
    ensures { (p : ℕ) (b : List ℕ) → kept_in clean.new p ≡ Some b
        → (kept_in clean.old p ≡ Some b) ⊎ ((p ≡ page) × (content ≡ Some b)) }
{
    if let Some(content) = content {
        match clean.put(page, content) {
            Ok(()) => {}
            Err(_) => {}
        }
    }
}
