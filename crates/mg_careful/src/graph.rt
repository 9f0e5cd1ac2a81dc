//! The precedence graph: which dirty page has to be written before which.

ghost use Rattle.std.specs.Prelude.{◌≡◌, ◌≢◌, ◌<◌, ◌↔◌, ◌⊎◌, true, false, IsTrue, IsNone, IfSome, IfOk};
ghost use Rattle.mg_careful.specs.Precedence.{Precedes};
ghost use Rattle.mg_careful.specs.Graph.{is_entered as entered_test, is_ordered, entered_count, room_of};
ghost use Rattle.mg_careful.specs.Graph.{IsBlankGraph, EntersPage, ClearsPage, AddsOrder, IsFirstReady, IsAcyclic};

use crate::bits::Bits;
use crate::places::{blank_places, count_pages, find, find_free, place_of};
use crate::ready::least_ready;
use crate::rows::{
    blank_rows, clear_member, clear_row, close, close_all, is_row_blank, is_set, set_bit,
};
use mg_base::Memory;
use std::alloc::Global;
use std::marker::Model;

/// An order of page writes: the page `first` has to reach the disk before the page `later` does.
#[derive(Clone, Copy, Debug, PartialEq, Eq)]
pub struct Order {
    pub first: u32,
    pub later: u32,
}

/// The orders between entered pages. It has no cycle: no page precedes itself.
///
/// A page is any number. All memory is taken by `new`.
#[derive(Drop)]
pub struct Graph {
    /// The page at each place.
    pages: Vec<Option<u32>>,
    /// For each place the places that are ordered directly before it.
    before: Vec<Bits>,
    /// For each place all places that it precedes.
    after: Vec<Bits>,
    /// A row to work in.
    row: Bits,
}

impl Model for Graph {
    ghost use Rattle.mg_careful.specs.Graph.{PageGraph, IsGraph};

    ghost Value = { PageGraph };

    ghost view = { λ g. record { pages = g.pages.items; before = g.before.items } };

    ghost invariant = { λ g. IsGraph g.pages.items g.before.items g.after.items g.row };
}

impl Graph {
    /// A graph without pages, with room for this many.
    ///
    /// # Errors
    ///
    /// `Memory` only.
    pub fn new(alloc: Global, pages: u32) -> Result<Graph, Memory>
        ensures { IfOk result (λ g. IsBlankGraph g pages) }
    {
        let size = pages as usize;
        Ok(Graph {
            pages: blank_places(alloc, size)?,
            before: blank_rows(alloc, size)?,
            after: blank_rows(alloc, size)?,
            row: Bits::blank(alloc, size)?,
        })
    }

    /// The number of entered pages.
    #[tactic(auto, unfolding(crate::specs::Graph::entered_count))]
    pub fn len(&self) -> usize
        ensures { result ≡ entered_count self.now }
    {
        count_pages(&self.pages)
    }

    /// Tells whether no page is entered.
    pub fn is_empty(&self) -> bool
        ensures { IsTrue result ↔ (entered_count self.now ≡ 0) }
    {
        self.len() == 0
    }

    /// Tells whether one more page can be entered.
    #[tactic(auto, unfolding(crate::specs::Graph::room_of))]
    pub fn has_room(&self) -> bool
        ensures { IsTrue result ↔ (entered_count self.now < room_of self.now) }
    {
        self.len() < self.pages.len()
    }

    /// Tells whether a page is entered.
    pub fn is_entered(&self, page: u32) -> bool
        ensures { result ≡ entered_test self.now page }
    {
        find(&self.pages, page).is_some()
    }

    /// Enters a page without orders. An entered page stays as it is.
    pub fn enter(&mut self, page: u32)
        requires room { entered_test self.old page ≡ false
            → entered_count self.old < room_of self.old }
        ensures { EntersPage self.old self.new page }
    {
        if find(&self.pages, page).is_some() {
            return;
        }
        if let Some(place) = find_free(&self.pages) {
            self.pages[place] = Some(page);
        }
    }

    /// Removes a page with its orders: what preceded through it alone precedes no longer. A page
    /// that isn't entered changes nothing.
    ///
    /// A page without predecessor costs its own row and column; else the closure is computed anew.
    pub fn clear(&mut self, page: u32)
        ensures { ClearsPage self.old self.new page }
    {
        if let Some(place) = find(&self.pages, page) {
            let size = self.pages.len();
            let is_first = is_row_blank(&self.before, size, place);
            self.pages[place] = None;
            clear_member(&mut self.before, size, place);
            if is_first {
                clear_row(&mut self.after, size, place);
            } else {
                close_all(&self.before, &mut self.after, &mut self.row, size);
            }
        }
    }

    /// Tells whether the order of `first` before `later` would close a cycle.
    pub fn would_cycle(&self, first: u32, later: u32) -> bool
        ensures { IsTrue result ↔ ((later ≡ first) ⊎ Precedes (is_ordered self.now) later first) }
    {
        if first == later {
            return true;
        }
        match (find(&self.pages, later), find(&self.pages, first)) {
            (Some(from), Some(to)) => is_set(&self.after, self.pages.len(), from, to),
            _ => false,
        }
    }

    /// Adds the order of `first` before `later`.
    pub fn add(&mut self, first: u32, later: u32)
        requires first { entered_test self.old first ≡ true }
        requires later { entered_test self.old later ≡ true }
        requires apart { first ≢ later }
        requires no_cycle { Precedes (is_ordered self.old) later first → ⊥ }
        ensures adds { AddsOrder self.old self.new first later }
        ensures acyclic { IsAcyclic self.new }
    {
        let size = self.pages.len();
        let from = place_of(&self.pages, first);
        let to = place_of(&self.pages, later);
        // An order that is there already is closed already: closing costs up to size * size steps.
        if is_set(&self.before, size, to, from) {
            return;
        }
        set_bit(&mut self.before, size, to, from);
        close(&mut self.after, &mut self.row, size, from, to);
    }

    /// The page that may be written first towards `goal`: of the goal and the pages that precede
    /// it, the one of least number that no page precedes. None where the goal isn't entered.
    pub fn first_ready(&self, goal: u32) -> Option<u32>
        ensures none { IsNone result ↔ (entered_test self.now goal ≡ false) }
        ensures ready { IfSome result (λ page. IsFirstReady self.now goal page) }
    {
        let place = find(&self.pages, goal)?;
        least_ready(&self.pages, &self.before, &self.after, place)
    }
}
