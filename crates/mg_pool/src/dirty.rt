//! The table of dirty pages. All its memory is taken when it is made.

ghost use Rattle.std.specs.Prelude.{◌≡◌, ◌≢◌, ◌<◌, ◌↔◌, ℕ, IsTrue, IfOk, IsSome, IfSome, IfNone, Some, None, length, [], map, slice_index_or, vec_capacity, ◌≤◌, true, not, ◌&&◌};
ghost use Rattle.std.specs.Option.{option_copied};
ghost use Rattle.mg_pool.specs.Dirty.{content_of, is_dirty as dirty_test, PutsContent, TakesOut, IsSpare, IsLeastPage, MarksAll, is_marked, marked_in, with_mark};
ghost use Rattle.mg_pool.specs.Batch.{is_in, outside_in, dirty_with};
ghost use Rattle.mg_careful.specs.Rows.{lesser_of};
ghost use Rattle.mg_pool.specs.DirtyPage.{DirtyPage as Entry};

use crate::batch::{BatchPage, has_page};
use crate::dirty_page::{DirtyPage, MARKERS};
use crate::reserved::append;
use crate::tested::Tested;
use mg_base::{Bytes, Memory};
use mg_careful::Links;
use std::alloc::Global;
use std::marker::Model;

/// The dirty pages, each with its content, and buffers for as many more as there is room for.
#[derive(Drop)]
pub struct DirtyTable<L: Links> {
    size: usize,
    room: usize,
    pages: Vec<DirtyPage<L>>,
    spare: Vec<Bytes>,
    hints: Vec<u16>,
}

/// For how many numbers of pages the table notes a place: twice as many as pages may be dirty, so
/// that pages that follow each other seldom share one.
const HINTS: usize = 1024;

impl<L: Links> Model for DirtyTable<L> {
    ghost use Rattle.std.specs.Prelude.{◌≡◌, ◌+◌, ◌≤◌, length, vec_capacity};
    ghost use Rattle.mg_pool.specs.Dirty.{DirtyPages, IsTable, IsSpare};

    ghost Value = { DirtyPages };

    ghost view = { λ t. record { size = t.size; room = t.room; pages = t.pages.items } };

    ghost invariant = { λ t. IsTable t.size t.pages.items × IsSpare t.size t.spare.items
        × (length t.pages.items + length t.spare.items ≡ t.room)
        × (t.room ≤ vec_capacity t.pages) × (t.room ≤ vec_capacity t.spare) };
}

impl<L: Links> DirtyTable<L> {
    /// A table without pages, with room for this many.
    ///
    /// # Errors
    ///
    /// `Memory` only.
    pub fn new(alloc: Global, size: usize, room: usize) -> Result<DirtyTable<L>, Memory>
        ensures size { IfOk result (λ t. t.size ≡ size) }
        ensures room { IfOk result (λ t. t.room ≡ room) }
        ensures pages { IfOk result (λ t. t.pages ≡ []) }
    {
        Ok(DirtyTable {
            size,
            room,
            pages: Vec::with_capacity(alloc, room)?,
            spare: buffers(alloc, size, room)?,
            hints: vec![in alloc; 0u16; HINTS]?,
        })
    }

    /// How many pages are dirty.
    pub fn len(&self) -> usize
        ensures { result ≡ length self.now.pages }
    {
        self.pages.len()
    }

    /// Tells whether the table has room for one page more.
    pub fn has_room(&self) -> bool
        ensures { IsTrue result ↔ (length self.now.pages < self.now.room) }
    {
        self.pages.len() < self.room
    }

    /// The content of a dirty page.
    pub fn content(&self, page: u32) -> Option<&[u8]>
        ensures content { option_copied result ≡ content_of self.now page }
        ensures whole { IfSome result (λ b. length b.now ≡ self.now.size) }
    {
        match self.tested(page) {
            Some(tested) => Some(tested.as_slice()),
            None => None,
        }
    }

    /// The content of a dirty page, with what is known of it.
    pub fn tested(&self, page: u32) -> Option<&Tested<L>>
        ensures content { option_copied result ≡ content_of self.now page }
        ensures whole { IfSome result (λ b. length b.now ≡ self.now.size) }
    {
        let place = find(&self.pages, &self.hints, page)?;
        Some(self.pages[place].tested())
    }

    /// Puts a content, one page long, into a page's place, without memory. A page that wasn't dirty
    /// takes a place of its own and has no mark.
    pub fn put(&mut self, page: u32, bytes: &[u8])
        requires whole { length bytes.now ≡ self.old.size }
        requires room { content_of self.old page ≡ None → length self.old.pages < self.old.room }
        ensures { PutsContent self.old self.new page bytes.now }
    {
        if let Some(place) = find(&self.pages, &self.hints, page) {
            let entry = &mut self.pages[place];
            entry.overwrite(bytes);
            return;
        }
        if let Some(mut buffer) = self.spare.pop() {
            buffer.overwrite(bytes);
            note(&mut self.hints, page, self.pages.len());
            append(&mut self.pages, DirtyPage::new(page, buffer));
        }
    }

    /// Takes a page out of the table. Its buffer waits for another one.
    pub fn take_out(&mut self, page: u32)
        requires { dirty_test self.old page ≡ true }
        ensures taken { TakesOut self.old self.new page }
        ensures room { length self.new.pages < self.new.room }
    {
        if let Some(place) = find(&self.pages, &self.hints, page) {
            let entry = self.pages.remove(place);
            note_all(&mut self.hints, &self.pages, place);
            append(&mut self.spare, entry.into_bytes());
        }
    }
}

impl<L: Links> DirtyTable<L> {
    /// The dirty page of least number, none where no page is dirty.
    pub fn least(&self) -> Option<u32>
        ensures { IsLeastPage (dirty_test self.now) result }
    {
        let mut least = None;
        for i in 0..self.pages.len() {
            least = lesser(least, Some(self.pages[i].number()));
        }
        least
    }

    /// The page of least number that `who` has marked, none where there is none.
    pub fn least_marked(&self, who: usize) -> Option<u32>
        requires { who < MARKERS }
        ensures { IsLeastPage (λ page. is_marked self.now page who) result }
    {
        let mut least = None;
        for i in 0..self.pages.len() {
            least = lesser(least, marked_page(&self.pages, i, who));
        }
        least
    }

    /// The dirty page of least number that isn't in a batch, none where there is none.
    pub fn least_outside(&self, batch: &Vec<BatchPage>) -> Option<u32>
        ensures least { IsLeastPage
            (λ page. dirty_test self.now page && not (is_in batch.now.items page)) result }
        ensures some { length batch.now.items < dirty_with self.now batch.now.items
            → IsSome result }
    {
        let mut least = None;
        for i in 0..self.pages.len() {
            least = lesser(least, page_outside(&self.pages, i, batch));
        }
        least
    }

    /// Gives every dirty page the mark of `who`.
    pub fn mark(&mut self, who: usize)
        requires { who < MARKERS }
        ensures { MarksAll self.old self.new who }
    {
        mark_all(&mut self.pages, who);
    }
}

/// Gives every entry the mark of `who`.
fn mark_all<L: Links>(pages: &mut Vec<DirtyPage<L>>, who: usize)
    requires { who < MARKERS }
    ensures items { pages.new.items ≡ map (with_mark who) pages.old.items }
    ensures capacity { vec_capacity pages.new ≡ vec_capacity pages.old }
{
    for i in 0..pages.len() {
        let entry = &mut pages[i];
        entry.mark(who);
    }
}

/// The page at a place, if it isn't in a batch.
fn page_outside<L: Links>(
    pages: &Vec<DirtyPage<L>>,
    place: usize,
    batch: &Vec<BatchPage>,
) -> Option<u32>
    requires place { place < length pages.now.items }
    ensures { (d : Entry) → result ≡ outside_in batch.now.items
        (slice_index_or pages.now.items place d) }
{
    let page = pages[place].number();
    if has_page(batch, page) {
        None
    } else {
        Some(page)
    }
}

/// The page at a place, if `who` has marked it.
fn marked_page<L: Links>(pages: &Vec<DirtyPage<L>>, place: usize, who: usize) -> Option<u32>
    requires place { place < length pages.now.items }
    requires who { who < MARKERS }
    ensures { (d : Entry) → result ≡ marked_in who (slice_index_or pages.now.items place d) }
{
    if pages[place].has_mark(who) {
        Some(pages[place].number())
    } else {
        None
    }
}

/// The lesser of two numbers, where there are two.
fn lesser(a: Option<u32>, b: Option<u32>) -> Option<u32>
    ensures { result ≡ lesser_of a b }
{
    match (a, b) {
        (None, _) => b,
        (_, None) => a,
        (Some(m), Some(n)) => Some(if m < n { m } else { n }),
    }
}

/// As many buffers, each of one page.
fn buffers(alloc: Global, size: usize, room: usize) -> Result<Vec<Bytes>, Memory>
    ensures len { IfOk result (λ spare. length spare.items ≡ room) }
    ensures whole { IfOk result (λ spare. IsSpare size spare.items) }
    ensures capacity { IfOk result (λ spare. room ≤ vec_capacity spare) }
{
    let mut spare = Vec::with_capacity(alloc, room)?;
    for _ in 0..room {
        spare.push(Bytes::zeroed(alloc, size)?)?;
    }
    Ok(spare)
}

/// The place of a page in the table: the one that is noted for it, where the page is there, else
/// the one that a search finds.
fn find<L: Links>(pages: &Vec<DirtyPage<L>>, hints: &Vec<u16>, page: u32) -> Option<usize>
    ensures found { IfSome result (λ i. (i < length pages.now.items)
        × ((d : Entry) → (slice_index_or pages.now.items i d).page ≡ page)) }
    ensures absent { IfNone result ((i : ℕ) (d : Entry) → i < length pages.now.items
        → (slice_index_or pages.now.items i d).page ≢ page) }
{
    match hinted(pages, hints, page) {
        Some(place) => Some(place),
        None => search(pages, page),
    }
}

/// The place that is noted for a page, if the page is there. A place that was noted for another
/// page, or before pages left the table, is not believed: it costs a search, and no more.
fn hinted<L: Links>(pages: &Vec<DirtyPage<L>>, hints: &Vec<u16>, page: u32) -> Option<usize>
    ensures { IfSome result (λ i. (i < length pages.now.items)
        × ((d : Entry) → (slice_index_or pages.now.items i d).page ≡ page)) }
{
    let place = *hints.get(page as usize % HINTS)? as usize;
    if place < pages.len() && pages[place].number() == page {
        Some(place)
    } else {
        None
    }
}

/// Notes the place of a page.
fn note(hints: &mut Vec<u16>, page: u32, place: usize)
    ensures { length hints.new.items ≡ length hints.old.items }
{
    if let Some(hint) = hints.get_mut(page as usize % HINTS) {
        // No table has so many pages; a place that is cut off would not be believed.
        *hint = place.min(u16::MAX as usize) as u16;
    }
}

/// Notes the places of all pages from a place on.
fn note_all<L: Links>(hints: &mut Vec<u16>, pages: &Vec<DirtyPage<L>>, from: usize)
    ensures { length hints.new.items ≡ length hints.old.items }
{
    for place in from..pages.len() {
        note(hints, pages[place].number(), place);
    }
}

/// The place of a page in the table, by a look at each.
fn search<L: Links>(pages: &Vec<DirtyPage<L>>, page: u32) -> Option<usize>
    ensures found { IfSome result (λ i. (i < length pages.now.items)
        × ((d : Entry) → (slice_index_or pages.now.items i d).page ≡ page)) }
    ensures absent { IfNone result ((i : ℕ) (d : Entry) → i < length pages.now.items
        → (slice_index_or pages.now.items i d).page ≢ page) }
{
    for (i, d) in pages.iter().enumerate() {
        if d.number() == page {
            return Some(i);
        }
    }
    None
}
