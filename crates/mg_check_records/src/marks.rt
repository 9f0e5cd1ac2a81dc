//! Which cells of a table were met.

ghost use Rattle.std.specs.Prelude.{◌≡◌, ◌≤◌, ◌<◌, false, true, IfOk, length, replicate, slice_set};
ghost use Rattle.std.proofs.Common.{get_or};
ghost use Rattle.mg_check_records.specs.Listing.{mark_number as number_of_mark, set_below};

use mg_base::Memory;
use std::alloc::Global;
use std::marker::Model;

/// A mark for each place of the data pages of a table: whether its cell was met.
#[derive(Drop)]
pub struct Marks {
    items: Vec<bool>,
}

impl Model for Marks {
    ghost use Rattle.std.specs.Prelude.{List, Bool};

    ghost Value = { List Bool };

    ghost view = { λ marks. marks.items.items };
}

/// A mark as a number.
fn mark_number(mark: bool) -> usize
    ensures number { result ≡ number_of_mark mark }
    ensures most { result ≤ 1 }
{
    if mark { 1 } else { 0 }
}

/// Tells whether a mark is set.
fn is_set(marks: &[bool], at: usize) -> bool
    ensures { result ≡ get_or marks.now at false }
{
    marks.get(at).copied().unwrap_or(false)
}

/// How many marks are set.
fn count_set(marks: &[bool]) -> usize
    ensures { result ≡ set_below marks.now (length marks.now) }
{
    let mut count = 0;
    for at in 0..marks.len() {
        let mark = is_set(marks, at);
        let number = mark_number(mark);
        count += number;
    }
    count
}

impl Marks {
    /// So many marks, none of which is set.
    ///
    /// # Errors
    ///
    /// `Memory` only.
    pub fn new(alloc: Global, count: usize) -> Result<Marks, Memory>
        ensures { IfOk result (λ marks. marks ≡ replicate count false) }
    {
        Ok(Marks {
            items: vec![in alloc; false; count]?,
        })
    }

    /// Tells whether a mark is set.
    pub(crate) fn has(&self, at: usize) -> bool
        ensures { result ≡ get_or self.now at false }
    {
        self.items.get(at).copied().unwrap_or(false)
    }

    /// Sets a mark.
    pub(crate) fn put(&mut self, at: usize)
        requires { at < length self.old }
        ensures { self.new ≡ slice_set self.old at true }
    {
        self.items[at] = true;
    }

    /// How many marks are set.
    pub fn count(&self) -> usize
        ensures { result ≡ set_below self.now (length self.now) }
    {
        count_set(&self.items)
    }
}
