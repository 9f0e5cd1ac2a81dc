//! Images of 1024-byte pages made by hand: which trees they have, what is found in them, and which
//! rule each broken one breaks.

use super::cases::{Case, hold_each};
use super::nodes::{begun, pad};
use super::sheets::{Sheet, image_with, pages_of};
use mg_base::{Bytes, PageNo, RecId};
use mg_model::Index;
use mg_reading::{Image, ReadFault, Rule};
use mg_trees::{Levels, is_found_in, read_tree};
use mg_value::{Name, Txt, Value};
use std::alloc::Global;
use std::test::Fail;

// The first pointer page of the table.
const OWNER: u8 = 3;

// An index page: its level, right neighbour, where its entries end, its fences, and its entries
// with their children. A letter stands for the key of the text of that letter alone, with the
// record of page 6 and of a slot of its number; 0 for no fence, and for the least entry.
struct Made(u8, u8, u8, u8, u8, &'static [(u8, u8)]);

// Appends a fence or an entry.
fn put_entry(letter: u8, out: &mut Vec<u8>) -> Result<(), Fail> {
    if letter == 0 {
        out.extend_from_slice(&[0, 0, 0, 0, 0, 0, 0, 0])?;
    } else {
        out.extend_from_slice(&[4, 0, 2, letter, 0, 0, 6, 0, 0, 0, letter, 0])?;
    }
    Ok(())
}

// Appends a fence where there is one.
fn put_fence(letter: u8, out: &mut Vec<u8>) -> Result<(), Fail> {
    if letter != 0 {
        put_entry(letter, out)?;
    }
    Ok(())
}

// What stands before the fences of an index page of this number.
fn begin(alloc: Global, n: u8, made: &Made) -> Result<Vec<u8>, Fail> {
    let count = (made.5.len() % 256) as u8;
    let low = u8::from(made.3 != 0);
    let high = u8::from(made.4 != 0);
    begun(
        alloc,
        n,
        OWNER,
        [made.0, count, made.1, made.2, low + 2 * high],
    )
}

// Appends an entry of a page of a level, with its child where that is an inner page.
fn put_child(level: u8, entry: (u8, u8), out: &mut Vec<u8>) -> Result<(), Fail> {
    put_entry(entry.0, out)?;
    if level > 0 {
        out.extend_from_slice(&[entry.1, 0, 0, 0])?;
    }
    Ok(())
}

// Appends the entries of a page of a level.
fn put_entries(level: u8, entries: &[(u8, u8)], out: &mut Vec<u8>) -> Result<(), Fail> {
    for entry in entries {
        put_child(level, *entry, out)?;
    }
    Ok(())
}

// An index page of this number.
fn page_of(alloc: Global, n: u8, made: &Made) -> Result<Bytes, Fail> {
    let mut out = begin(alloc, n, made)?;
    put_fence(made.3, &mut out)?;
    put_fence(made.4, &mut out)?;
    put_entries(made.0, made.5, &mut out)?;
    pad(&mut out)?;
    Ok(Bytes::new(out))
}

// The pages before the index pages: the header, the inventory, on which ten pages are used, and two
// that are zero.
const FIRST: &[Sheet] = &[
    Sheet::Header(1, 1, 1, 3),
    Sheet::Inventory(10),
    Sheet::Zero,
    Sheet::Zero,
];

// Appends these index pages, from page 4 on.
fn put_nodes(alloc: Global, pages: &mut Vec<Bytes>, nodes: &[Made]) -> Result<(), Fail> {
    let mut n = 4u8;
    for node in nodes {
        pages.push(page_of(alloc, n, node)?)?;
        n = n.wrapping_add(1);
    }
    Ok(())
}

// An image with these index pages, whose header is lawful.
fn image_of(alloc: Global, nodes: &[Made]) -> Result<Image, Fail> {
    let mut pages = pages_of(alloc, FIRST, &[])?;
    put_nodes(alloc, &mut pages, nodes)?;
    let image = image_with(alloc, pages)?;
    if !image.has_header() {
        return Err("no header")?;
    }
    Ok(image)
}

// The tree from a root on, of an image with these index pages.
fn read(alloc: Global, nodes: &[Made], root: u32) -> Result<Result<Levels, ReadFault>, Fail> {
    let image = image_of(alloc, nodes)?;
    Ok(read_tree(alloc, &image, u32::from(OWNER), root))
}

// The pages of a tree, a 0 behind each level.
fn listed(alloc: Global, tree: &Levels) -> Result<Vec<u32>, Fail> {
    let mut out = Vec::new(alloc);
    for level in tree.as_slice() {
        out.extend_from_slice(level.as_slice())?;
        out.push(0)?;
    }
    Ok(out)
}

// Tells whether these are the pages of a tree, a 0 behind each level.
fn has_pages(alloc: Global, tree: &Levels, wanted: &[u32]) -> Result<bool, Fail> {
    Ok(listed(alloc, tree)?.as_slice() == wanted)
}

// Index pages, and the pages of the tree from page 4 on, a 0 behind each level.
struct Lawful(&'static [Made], &'static [u32]);

impl Case for Lawful {
    fn holds(&self, alloc: Global) -> Result<bool, Fail> {
        match read(alloc, self.0, 4)? {
            Ok(tree) => has_pages(alloc, &tree, self.1),
            Err(_) => Ok(false),
        }
    }
}

// A leaf that is the root.
const LEAF: &[Made] = &[Made(0, 0, 52, 0, 0, &[(b'b', 0), (b'd', 0)])];

// A root with two leaves.
const TWO: &[Made] = &[
    Made(1, 0, 56, 0, 0, &[(0, 5), (b'm', 6)]),
    Made(0, 6, 64, 0, b'm', &[(b'b', 0), (b'd', 0)]),
    Made(0, 0, 64, b'm', 0, &[(b'm', 0), (b't', 0)]),
];

// A root with two children and three leaves: the middle one is reached from the left alone.
const LINKED: &[Made] = &[
    Made(1, 0, 56, 0, 0, &[(0, 5), (b'm', 6)]),
    Made(0, 7, 64, 0, b'g', &[(b'b', 0), (b'd', 0)]),
    Made(0, 0, 64, b'm', 0, &[(b'm', 0), (b't', 0)]),
    Made(0, 6, 64, b'g', b'm', &[(b'h', 0)]),
];

const LAWFUL: &[Lawful] = &[
    Lawful(LEAF, &[4, 0]),
    Lawful(TWO, &[4, 0, 5, 6, 0]),
    Lawful(LINKED, &[4, 0, 5, 7, 6, 0]),
];

#[test]
fn the_levels_of_lawful_trees(rt: HostRuntime) -> Result<(), Fail> {
    hold_each(&rt, rt.alloc(), LAWFUL)
}

// The rule that the tree from a root on breaks, the root, and the index pages.
struct Broken(Rule, u32, &'static [Made]);

impl Case for Broken {
    fn holds(&self, alloc: Global) -> Result<bool, Fail> {
        match read(alloc, self.2, self.1)? {
            Err(ReadFault::Broken(rule)) => Ok(rule == self.0),
            _ => Ok(false),
        }
    }
}

const BROKEN: &[Broken] = &[
    // Page 0 is the header.
    Broken(Rule::Once, 0, LEAF),
    // A low fence is the page's high one.
    Broken(
        Rule::Once,
        4,
        &[
            Made(1, 0, 56, 0, 0, &[(0, 5), (b'm', 6)]),
            Made(0, 7, 64, 0, b'm', &[(b'b', 0), (b'd', 0)]),
            Made(0, 0, 64, b'm', 0, &[(b'm', 0), (b't', 0)]),
            Made(0, 6, 52, b'm', b'm', &[]),
        ],
    ),
    // The page is not marked as used.
    Broken(Rule::Pages, 10, LEAF),
    // The page is none of an index.
    Broken(Rule::Pages, 2, LEAF),
    // Entries do not ascend.
    Broken(
        Rule::Pages,
        4,
        &[Made(0, 0, 52, 0, 0, &[(b'd', 0), (b'b', 0)])],
    ),
    // A child stands two levels below.
    Broken(
        Rule::Pages,
        4,
        &[
            Made(2, 0, 56, 0, 0, &[(0, 5), (b'm', 6)]),
            Made(0, 6, 64, 0, b'm', &[(b'b', 0), (b'd', 0)]),
            Made(0, 0, 64, b'm', 0, &[(b'm', 0), (b't', 0)]),
        ],
    ),
    // The root has a low fence.
    Broken(
        Rule::Once,
        4,
        &[Made(0, 0, 64, b'a', 0, &[(b'b', 0), (b'd', 0)])],
    ),
    // The root has a right neighbour.
    Broken(Rule::Once, 5, TWO),
    // The chain comes back.
    Broken(
        Rule::Once,
        4,
        &[
            Made(1, 0, 56, 0, 0, &[(0, 5), (b'm', 6)]),
            Made(0, 5, 64, 0, b'm', &[(b'b', 0), (b'd', 0)]),
        ],
    ),
    // An inner page has one entry.
    Broken(
        Rule::Once,
        4,
        &[
            Made(1, 0, 40, 0, 0, &[(0, 5)]),
            Made(0, 0, 52, 0, 0, &[(b'b', 0), (b'd', 0)]),
        ],
    ),
    // A child is not on the level below.
    Broken(
        Rule::Once,
        4,
        &[
            Made(1, 0, 56, 0, 0, &[(0, 5), (b'm', 7)]),
            Made(0, 6, 64, 0, b'm', &[(b'b', 0), (b'd', 0)]),
            Made(0, 0, 64, b'm', 0, &[(b'm', 0), (b't', 0)]),
        ],
    ),
    // A child has another low fence than its entry.
    Broken(
        Rule::Once,
        4,
        &[
            Made(1, 0, 56, 0, 0, &[(0, 5), (b'l', 6)]),
            Made(0, 6, 64, 0, b'm', &[(b'b', 0), (b'd', 0)]),
            Made(0, 0, 64, b'm', 0, &[(b'm', 0), (b't', 0)]),
        ],
    ),
    // The first child has a low fence.
    Broken(
        Rule::Once,
        4,
        &[
            Made(1, 0, 56, 0, 0, &[(0, 6), (b'm', 6)]),
            Made(0, 6, 64, 0, b'm', &[(b'b', 0), (b'd', 0)]),
            Made(0, 0, 64, b'm', 0, &[(b'm', 0), (b't', 0)]),
        ],
    ),
    // A high fence without a right neighbour.
    Broken(
        Rule::Once,
        4,
        &[
            Made(1, 0, 56, 0, 0, &[(0, 5), (b'm', 6)]),
            Made(0, 6, 64, 0, b'm', &[(b'b', 0), (b'd', 0)]),
            Made(0, 0, 76, b'm', b'z', &[(b'm', 0), (b't', 0)]),
        ],
    ),
    // A right neighbour without a high fence.
    Broken(
        Rule::Once,
        4,
        &[
            Made(1, 0, 56, 0, 0, &[(0, 5), (b'm', 6)]),
            Made(0, 6, 52, 0, 0, &[(b'b', 0), (b'd', 0)]),
            Made(0, 0, 64, b'm', 0, &[(b'm', 0), (b't', 0)]),
        ],
    ),
    // The right neighbour has another low fence.
    Broken(
        Rule::Once,
        4,
        &[
            Made(1, 0, 56, 0, 0, &[(0, 5), (b'm', 6)]),
            Made(0, 7, 64, 0, b'g', &[(b'b', 0), (b'd', 0)]),
            Made(0, 0, 64, b'm', 0, &[(b'm', 0), (b't', 0)]),
            Made(0, 6, 64, b'h', b'm', &[(b'h', 0)]),
        ],
    ),
];

#[test]
fn a_broken_tree_is_refused_by_its_rule(rt: HostRuntime) -> Result<(), Fail> {
    hold_each(&rt, rt.alloc(), BROKEN)
}

// The row of a letter.
fn row_of(alloc: Global, letter: u8) -> Result<Vec<Value>, Fail> {
    Ok(vec![in alloc; Value::Text(Txt::new(alloc, &[letter], 40)?)]?)
}

// Whether a row is found as the one of a slot of page 6, by an index with its root on page 4.
fn is_found(alloc: Global, image: &Image, row: &[Value], slot: u16) -> Result<bool, Fail> {
    let Ok(tree) = read_tree(alloc, image, u32::from(OWNER), 4) else {
        return Err("no tree")?;
    };
    let name = Name::new(b"I").ok_or("I is a name")?;
    let index = Index {
        name,
        column: 0,
        root: PageNo(4),
    };
    let trees = vec![in alloc; tree]?;
    let p = RecId {
        page: PageNo(6),
        slot,
    };
    Ok(is_found_in(alloc, image, &[index], &trees, p, row)?)
}

// Index pages, a letter and a slot, and whether the row of the letter is found as the one of that
// slot of page 6.
struct Sought(&'static [Made], u8, u16, bool);

impl Case for Sought {
    fn holds(&self, alloc: Global) -> Result<bool, Fail> {
        let image = image_of(alloc, self.0)?;
        let row = row_of(alloc, self.1)?;
        Ok(is_found(alloc, &image, &row, self.2)? == self.3)
    }
}

const ROWS: &[Sought] = &[
    // The first and the last one of a leaf, another record, and a row between the two.
    Sought(LEAF, b'b', 98, true),
    Sought(LEAF, b'd', 100, true),
    Sought(LEAF, b'b', 99, false),
    Sought(LEAF, b'c', 99, false),
    // In the left leaf, equal to a fence, and in the right leaf.
    Sought(TWO, b'd', 100, true),
    Sought(TWO, b'm', 109, true),
    Sought(TWO, b't', 116, true),
    // By a right link, and not there.
    Sought(LINKED, b'h', 104, true),
    Sought(LINKED, b'i', 105, false),
];

#[test]
fn which_rows_are_found(rt: HostRuntime) -> Result<(), Fail> {
    hold_each(&rt, rt.alloc(), ROWS)
}
