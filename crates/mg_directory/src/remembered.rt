//! Where the rows of tables in the catalog were last found.

ghost use Rattle.std.specs.Prelude.{◌<◌, IfSome, length};

use mg_base::RecId;
use std::alloc::Global;

/// Of how many tables at most a place is remembered. Chosen.
const MOST_REMEMBERED: usize = 64;

/// Where the row of a table was found.
#[derive(Clone, Copy, Debug)]
struct Found {
    /// The table's first pointer page.
    first: u32,
    rec: RecId,
}

/// Where the rows of some tables in the catalog were last found. Nothing is promised of a place: who takes one looks there.
#[derive(Debug, Drop)]
pub(crate) struct Remembered {
    items: Vec<Found>,
}

impl Remembered {
    /// Nothing is remembered.
    pub(crate) fn new(alloc: Global) -> Remembered {
        Remembered {
            items: Vec::new(alloc),
        }
    }

    /// Where the row of the table that begins with a page was last found.
    pub(crate) fn get(&self, first: u32) -> Option<RecId> {
        match place_in(&self.items, first) {
            Some(place) => Some(self.items[place].rec),
            None => None,
        }
    }

    /// Remembers where the row of a table was found, if there is memory for it. Where there are too many, the others are
    /// forgotten.
    pub(crate) fn put(&mut self, first: u32, rec: RecId) {
        let found = Found { first, rec };
        match place_in(&self.items, first) {
            Some(place) => self.items[place] = found,
            None => self.add(found),
        }
    }

    /// Remembers one more.
    fn add(&mut self, found: Found) {
        if self.items.len() >= MOST_REMEMBERED {
            self.items.clear();
        }
        let _added = self.items.push(found);
    }
}

/// The place in a list of what is remembered of a table.
fn place_in(items: &Vec<Found>, first: u32) -> Option<usize>
    ensures { IfSome result (λ place. place < length items.now.items) }
{
    for place in 0..items.len() {
        if items[place].first == first {
            return Some(place);
        }
    }
    None
}
