//! What was noted of the room of pages: a number for a page, as long as its content stays.

ghost use Rattle.std.specs.Prelude.{◌≡◌, ◌≢◌, ℕ, None, IfOk, length, min, slice_set};
ghost use Rattle.mg_pool.specs.Rooms.{NotesRoom, noted_in, told};

use mg_base::Memory;
use std::alloc::Global;
use std::marker::Model;

/// Stands where nothing is noted: no page has so much room.
const UNNOTED: u16 = 65_535;

/// How much room pages have, of those of which it was noted, by their numbers.
#[derive(Drop)]
pub struct Rooms {
    notes: Vec<u16>,
}

impl Model for Rooms {
    ghost use Rattle.std.specs.Prelude.{List, ℕ};

    ghost Value = { List ℕ };

    ghost view = { λ r. r.notes.items };
}

impl Rooms {
    /// Rooms of the pages below a number, of which nothing is noted. All memory is taken here.
    ///
    /// # Errors
    ///
    /// `Memory` only.
    pub fn new(alloc: Global, pages: usize) -> Result<Rooms, Memory>
        ensures none { IfOk result (λ r. (page : ℕ) → noted_in r page ≡ None) }
        ensures len { IfOk result (λ r. length r ≡ pages) }
    {
        Ok(Rooms {
            notes: vec![in alloc; UNNOTED; pages]?,
        })
    }

    /// The room that was noted of a page.
    pub fn get(&self, page: u32) -> Option<u32>
        ensures { result ≡ noted_in self.now page }
    {
        match self.notes.get(page as usize) {
            Some(note) => known(*note),
            None => None,
        }
    }

    /// Notes the room of a page. Nothing is noted of a page past those that there are notes for, nor
    /// of a room that no page has.
    pub fn note(&mut self, page: u32, room: u32)
        ensures { NotesRoom self.old self.new page room }
    {
        self.put(page, note_of(room));
    }

    /// Forgets what was noted of a page.
    pub fn forget(&mut self, page: u32)
        ensures here { noted_in self.new page ≡ None }
        ensures others { (p : ℕ) → p ≢ page → noted_in self.new p ≡ noted_in self.old p }
        ensures len { length self.new ≡ length self.old }
    {
        self.put(page, UNNOTED);
    }

    /// Puts a note of a page in the place of the one that is there, if there are notes for the page.
    fn put(&mut self, page: u32, note: u16)
        ensures { self.new ≡ slice_set self.old page note }
    {
        if (page as usize) < self.notes.len() {
            self.notes[page as usize] = note;
        }
    }
}

/// The note of a room; that of none where no page has so much.
fn note_of(room: u32) -> u16
    ensures { result ≡ min room 65535 }
{
    room.min(65_535) as u16
}

/// The room that a note tells.
fn known(note: u16) -> Option<u32>
    ensures { result ≡ told note }
{
    if note == UNNOTED {
        None
    } else {
        Some(u32::from(note))
    }
}
