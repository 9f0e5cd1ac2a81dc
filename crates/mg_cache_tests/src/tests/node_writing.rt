//! Pages of 1024 bytes without fences: entries that come and go, a split and a copy, byte by byte.

ghost use Rattle.std.specs.Prelude.{◌≡◌, ◌≤◌, length};
ghost use Rattle.mg_node_writing.specs.LeafLaws.{IsFreeLeaf};

use super::calls::{Begins, Bench, run_each};
use super::entries::entry_of;
use mg_base::{Memory, PageNo, get_u16};
use mg_node::END_AT;
use mg_node_writing::{insert, new_node, remove, split};
use std::alloc::Global;
use std::test::Fail;

const SIZE: usize = 1024;

/// What is done to a page, and what comes of it.
#[derive(Clone, Copy)]
pub enum Deed {
    /// The entry of a key of so many equal bytes, and of a slot of page 6, is put in.
    Put(u8, usize, u16),
    /// Such an entry is taken out, where it is there.
    Take(u8, usize, u16, bool),
    /// The page begins with these bytes.
    Begins(&'static [u8]),
    /// Split, the page begins with the first bytes, and the new page 12 with the others.
    Splits(&'static [u8], &'static [u8]),
}

// Puts an entry of a record of page 6 into a page, and tells whether it found room.
fn put(page: &mut [u8], alloc: Global, byte: u8, len: usize, slot: u16) -> Result<bool, Memory>
    requires leaf { IsFreeLeaf page.old }
    requires size { length page.old ≡ 1024 }
    requires short { len ≤ 128 }
    ensures leaf { IsFreeLeaf page.new }
{
    let entry = entry_of(alloc, byte, len, 6, slot)?;
    Ok(insert(page, &entry).is_ok())
}

// Takes such an entry out of a page, and tells whether it was there.
fn take(page: &mut [u8], alloc: Global, byte: u8, len: usize, slot: u16) -> Result<bool, Memory>
    requires leaf { IsFreeLeaf page.old }
    ensures leaf { IsFreeLeaf page.new }
{
    let entry = entry_of(alloc, byte, len, 6, slot)?;
    Ok(remove(page, &entry))
}

// Splits a page where it has no room for some entry, and tells whether it did.
fn split_if_full(left: &mut [u8], right: &mut [u8]) -> bool
    requires leaf { IsFreeLeaf left.old }
    requires sizes { length right.old ≡ length left.old }
{
    let room = left.len() - get_u16(left, END_AT) as usize;
    if room >= 8 + left.len() / 8 {
        return false;
    }
    split(left, right, PageNo(12));
    true
}

// Tells whether a page that is split begins with the first bytes, and the new page with the others.
fn splits(page: &[u8; SIZE], first: &[u8], others: &[u8]) -> bool
    requires { IsFreeLeaf page.now }
{
    let mut left = *page;
    let mut right = [0u8; SIZE];
    split_if_full(&mut left, &mut right) && left.starts_with(first) && right.starts_with(others)
}

/// A leaf to which the deeds are done.
#[derive(Drop)]
pub struct Leaf {
    page: [u8; SIZE],
}

impl Bench for Leaf {
    type Call = Deed;

    ghost ready = { λ leaf. IsFreeLeaf leaf.page };

    fn does(&mut self, alloc: Global, deed: &Deed) -> bool {
        match *deed {
            Deed::Put(byte, len, slot) => {
                put(&mut self.page, alloc, byte, len.min(128), slot) == Ok(true)
            }
            Deed::Take(byte, len, slot, there) => {
                take(&mut self.page, alloc, byte, len, slot) == Ok(there)
            }
            Deed::Begins(bytes) => self.page.starts_with(bytes),
            Deed::Splits(first, others) => splits(&self.page, first, others),
        }
    }
}

impl Begins for Leaf {
    type From = ();

    fn begin(_alloc: Global, _from: ()) -> Result<Leaf, Memory> {
        Ok(Leaf { page: new_page() })
    }
}

// The empty leaf 9 of owner 5.
fn new_page() -> [u8; SIZE]
    ensures { IsFreeLeaf result }
{
    let mut page = [0u8; SIZE];
    new_node(&mut page, PageNo(9), 5, 0);
    page
}

const TWO: &[Deed] = &[
    Deed::Put(7, 1, 2),
    Deed::Put(7, 1, 1),
    Deed::Put(7, 1, 2),
    // Kind 7, page 9, owner 5; level 0, two entries, no neighbour, their end at 28 + 9 + 9, no
    // fence.
    Deed::Begins(&[
        7, 0, 0, 0, 9, 0, 0, 0, 5, 0, 0, 0, 0, 0, 0, 0, 0, 0, 2, 0, 0, 0, 0, 0, 46, 0, 0, 0, 1, 0,
        7, 6, 0, 0, 0, 1, 0, 1, 0, 7, 6, 0, 0, 0, 2, 0,
    ]),
    Deed::Take(8, 1, 1, false),
    Deed::Take(7, 1, 1, true),
    Deed::Begins(&[
        7, 0, 0, 0, 9, 0, 0, 0, 5, 0, 0, 0, 0, 0, 0, 0, 0, 0, 1, 0, 0, 0, 0, 0, 37, 0, 0, 0, 1, 0,
        7, 6, 0, 0, 0, 2, 0,
    ]),
];

// Seven entries of 128 bytes.
const SEVEN: &[Deed] = &[
    Deed::Put(1, 120, 1),
    Deed::Put(2, 120, 1),
    Deed::Put(3, 120, 1),
    Deed::Put(4, 120, 1),
    Deed::Put(5, 120, 1),
    Deed::Put(6, 120, 1),
    Deed::Put(7, 120, 1),
    Deed::Splits(
        // Four entries and the high fence end at 28 + 128 + 4 * 128, and page 12 is to the right.
        &[
            7, 0, 0, 0, 9, 0, 0, 0, 5, 0, 0, 0, 0, 0, 0, 0, 0, 0, 4, 0, 12, 0, 0, 0, 156, 2, 2, 0,
            120, 0, 5, 5,
        ],
        // The low fence and three entries end at 28 + 128 + 3 * 128.
        &[
            7, 0, 0, 0, 12, 0, 0, 0, 5, 0, 0, 0, 0, 0, 0, 0, 0, 0, 3, 0, 0, 0, 0, 0, 28, 2, 1, 0,
            120, 0, 5, 5,
        ],
    ),
];

const RUNS: &[(&str, (), &[Deed])] = &[
    ("entries stand in order and each once", (), TWO),
    (
        "four of seven entries stay on a page that is split",
        (),
        SEVEN,
    ),
];

#[test]
fn what_stands_on_a_page_of_an_index(rt: HostRuntime) -> Result<(), Fail> {
    run_each::<Leaf>(&rt, rt.alloc(), RUNS)
}
