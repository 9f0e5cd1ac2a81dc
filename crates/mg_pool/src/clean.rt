//! The clean pages of a cache: the last used ones, as many as there is room for.

ghost use Rattle.std.specs.NonZero.{non_zero_usize_get};
ghost use Rattle.std.specs.Option.{option_copied};
ghost use Rattle.std.specs.Prelude.{◌≡◌, [], IfOk, OnErr, OnOk};
ghost use Rattle.mg_pool.specs.Clean.{DropsClean, KeepsClean, PutsClean, kept_in};

use crate::tested::Tested;
use lru::LruCache;
use mg_base::Memory;
use mg_careful::Links;
use std::alloc::Global;
use std::marker::Model;
use std::num::NonZeroUsize;

/// Clean pages, of which the one that was used least recently gives way where there is no room.
#[derive(Drop)]
pub struct CleanTable<L: Links> {
    pages: LruCache<u32, Tested<L>>,
}

impl<L: Links> Model for CleanTable<L> {
    ghost use Rattle.mg_pool.specs.Clean.{CleanPages};

    ghost Value = { CleanPages };

    ghost view = { λ t. record { entries = t.pages.entries; room = t.pages.cap } };
}

impl<L: Links> CleanTable<L> {
    /// A table without pages, with room for this many.
    ///
    /// # Errors
    ///
    /// `Memory` only.
    pub fn new(alloc: Global, room: NonZeroUsize) -> Result<CleanTable<L>, Memory>
        ensures pages { IfOk result (λ t. t.entries ≡ []) }
        ensures room { IfOk result (λ t. t.room ≡ non_zero_usize_get room) }
    {
        Ok(CleanTable {
            pages: LruCache::new(alloc, room)?,
        })
    }

    /// The content of a page that is kept. It is used no later by this.
    pub fn get(&self, page: u32) -> Option<&Tested<L>>
        ensures { option_copied result ≡ kept_in self.now page }
    {
        self.pages.peek(&page)
    }

    /// Makes a page the one that was used last, if it is kept.
    pub fn touch(&mut self, page: u32)
        ensures { KeepsClean self.old self.new }
    {
        self.pages.promote(&page);
    }

    /// Puts a page beside the others, as the one that was used last.
    ///
    /// # Errors
    ///
    /// `Memory` only. No page has gone then.
    pub fn put(&mut self, page: u32, content: Tested<L>) -> Result<(), Memory>
        ensures put { OnOk result (PutsClean self.old self.new page content) }
        ensures same { OnErr result (self.new ≡ self.old) }
    {
        match self.pages.put(page, content) {
            Ok(_) => Ok(()),
            Err(_) => Err(Memory),
        }
    }

    /// Lets a page go, if it is kept, and hands it out.
    pub fn take_out(&mut self, page: u32) -> Option<Tested<L>>
        ensures { DropsClean self.old self.new page }
    {
        if self.pages.len() == 0 {
            return None;
        }
        self.pages.pop(&page)
    }
}
