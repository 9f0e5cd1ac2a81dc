//! Pages of 1024 bytes made by hand: what is read of them, and which ones are refused.

use super::cases::{Case, hold_each};
use mg_base::{Damaged, Field, PageNo, new_common};
use mg_node::{Entry, NODE_KIND, Node, check_node, read_node};
use std::alloc::Global;
use std::test::Fail;

const SIZE: usize = 1024;

// The index page 9 of owner 5, with these bytes behind the common part.
fn page_of(fields: &[u8]) -> [u8; SIZE] {
    let mut page = [0u8; SIZE];
    new_common(&mut page, PageNo(9), NODE_KIND, 5, 0);
    if fields.len() <= SIZE - 16 {
        page[16..16 + fields.len()].copy_from_slice(fields);
    }
    page
}

// What is read of a page: the level, the right neighbour, and the keys of the low fence, of the
// high fence and of the entries, each behind its length. None where the page is not lawful.
fn read_of(alloc: Global, fields: &[u8]) -> Result<Option<Vec<u8>>, Fail> {
    match read_node(alloc, &page_of(fields))? {
        Some(node) => Ok(Some(said_of(alloc, &node)?)),
        None => Ok(None),
    }
}

// What a page says, as bytes.
fn said_of(alloc: Global, node: &Node) -> Result<Vec<u8>, Fail> {
    let mut out = Vec::new(alloc);
    put_head(node, &mut out)?;
    put_fence(&node.low, &mut out)?;
    put_fence(&node.high, &mut out)?;
    put_entries(&node.entries, &mut out)?;
    Ok(out)
}

// Appends the level and the right neighbour.
fn put_head(node: &Node, out: &mut Vec<u8>) -> Result<(), Fail> {
    out.extend_from_slice(&node.level.to_le_bytes())?;
    out.extend_from_slice(&node.right.0.to_le_bytes())?;
    Ok(())
}

// Appends each entry.
fn put_entries(entries: &[Entry], out: &mut Vec<u8>) -> Result<(), Fail> {
    for entry in entries {
        put_entry(entry, out)?;
    }
    Ok(())
}

// Appends an entry: the length of its key, the key, and the low bytes of its record's page, of its
// record's slot and of its child.
fn put_entry(entry: &Entry, out: &mut Vec<u8>) -> Result<(), Fail> {
    out.push((entry.key.len() % 256) as u8)?;
    out.extend_from_slice(entry.key.as_slice())?;
    out.extend_from_slice(&low_bytes(entry))?;
    Ok(())
}

// The low bytes of an entry's record's page, of its record's slot and of its child.
fn low_bytes(entry: &Entry) -> [u8; 3] {
    [
        (entry.rec.page.0 % 256) as u8,
        (entry.rec.slot % 256) as u8,
        (entry.child.0 % 256) as u8,
    ]
}

// Appends a fence, ff where there is none.
fn put_fence(fence: &Option<Entry>, out: &mut Vec<u8>) -> Result<(), Fail> {
    match fence {
        Some(entry) => put_entry(entry, out)?,
        None => out.push(255)?,
    }
    Ok(())
}

// The bytes of a lawful page behind the common part, and what is read of it.
struct Lawful(&'static [u8], &'static [u8]);

impl Case for Lawful {
    fn holds(&self, alloc: Global) -> Result<bool, Fail> {
        match read_of(alloc, self.0)? {
            Some(read) => Ok(read.as_slice() == self.1),
            None => Ok(false),
        }
    }
}

// What lawful pages say.
const LAWFUL: &[Lawful] = &[
    // An empty leaf.
    Lawful(
        &[0, 0, 0, 0, 0, 0, 0, 0, 28, 0, 0, 0],
        &[0, 0, 0, 0, 0, 0, 255, 255],
    ),
    // A leaf with two entries, the second one ending at 28 + 9 + 10.
    Lawful(
        &[
            0, 0, 2, 0, 0, 0, 0, 0, 47, 0, 0, 0, 1, 0, 7, 6, 0, 0, 0, 1, 0, 2, 0, 7, 7, 6, 0, 0, 0,
            0, 0,
        ],
        &[0, 0, 0, 0, 0, 0, 255, 255, 1, 7, 6, 1, 0, 2, 7, 7, 6, 0, 0],
    ),
    // A leaf with both fences, a right neighbour and an entry equal to its low fence.
    Lawful(
        &[
            0, 0, 1, 0, 9, 0, 0, 0, 55, 0, 3, 0, 1, 0, 7, 6, 0, 0, 0, 1, 0, 1, 0, 8, 0, 0, 0, 0, 0,
            0, 1, 0, 7, 6, 0, 0, 0, 1, 0,
        ],
        &[
            0, 0, 9, 0, 0, 0, 1, 7, 6, 1, 0, 1, 8, 0, 0, 0, 1, 7, 6, 1, 0,
        ],
    ),
    // An inner page without a low fence, with two children.
    Lawful(
        &[
            1, 0, 2, 0, 0, 0, 0, 0, 53, 0, 0, 0, 0, 0, 0, 0, 0, 0, 0, 0, 8, 0, 0, 0, 1, 0, 7, 6, 0,
            0, 0, 1, 0, 9, 0, 0, 0,
        ],
        &[1, 0, 0, 0, 0, 0, 255, 255, 0, 0, 0, 8, 1, 7, 6, 1, 9],
    ),
];

// The bytes of a page, and whether it is lawful.
struct Judged(&'static [u8], bool);

impl Case for Judged {
    fn holds(&self, alloc: Global) -> Result<bool, Fail> {
        Ok(read_of(alloc, self.0)?.is_some() == self.1)
    }
}

// What no lawful page says, and the longest key.
const JUDGED: &[Judged] = &[
    // The end is not the last entry's.
    Judged(&[0, 0, 0, 0, 0, 0, 0, 0, 29, 0, 0, 0], false),
    // Two equal entries.
    Judged(
        &[
            0, 0, 2, 0, 0, 0, 0, 0, 46, 0, 0, 0, 1, 0, 7, 6, 0, 0, 0, 1, 0, 1, 0, 7, 6, 0, 0, 0, 1,
            0,
        ],
        false,
    ),
    // An entry below the low fence.
    Judged(
        &[
            0, 0, 1, 0, 0, 0, 0, 0, 46, 0, 1, 0, 1, 0, 7, 6, 0, 0, 0, 1, 0, 1, 0, 7, 6, 0, 0, 0, 0,
            0,
        ],
        false,
    ),
    // An entry equal to the high fence.
    Judged(
        &[
            0, 0, 1, 0, 0, 0, 0, 0, 46, 0, 2, 0, 1, 0, 7, 6, 0, 0, 0, 1, 0, 1, 0, 7, 6, 0, 0, 0, 1,
            0,
        ],
        false,
    ),
    // An inner page begins with another entry than the least one.
    Judged(
        &[
            1, 0, 1, 0, 0, 0, 0, 0, 40, 0, 0, 0, 0, 0, 0, 0, 0, 0, 1, 0, 8, 0, 0, 0,
        ],
        false,
    ),
    // An inner page begins with another entry than its low fence.
    Judged(
        &[
            1, 0, 1, 0, 0, 0, 0, 0, 50, 0, 1, 0, 1, 0, 7, 6, 0, 0, 0, 1, 0, 1, 0, 7, 6, 0, 0, 0, 2,
            0, 8, 0, 0, 0,
        ],
        false,
    ),
    // The key has 129 bytes.
    Judged(&[0, 0, 1, 0, 0, 0, 0, 0, 165, 0, 0, 0, 129, 0], false),
    // More entries than there is room for.
    Judged(&[0, 0, 255, 255, 0, 0, 0, 0, 36, 0, 0, 0], false),
    // The longest key has an eighth of the page.
    Judged(&[0, 0, 1, 0, 0, 0, 0, 0, 164, 0, 0, 0, 128, 0], true),
];

// What the test of page 9 of an owner answers, where these bytes stand behind the common part.
fn check_of(fields: &[u8], owner: u32) -> Result<(), Damaged> {
    check_node(&page_of(fields), PageNo(9), owner)
}

// The bytes of a page, and the field that is told of it, with the numbers found and wanted.
struct Broken(&'static [u8], Field, u64, u64);

impl Case for Broken {
    fn holds(&self, _alloc: Global) -> Result<bool, Fail> {
        let damage = Damaged {
            page: PageNo(9),
            field: self.1,
            found: self.2,
            wanted: self.3,
        };
        Ok(check_of(self.0, 5) == Err(damage))
    }
}

// The first field that differs is named.
const DAMAGED: &[Broken] = &[
    // An inner page with one entry; more entries than fit a leaf, and an inner page.
    Broken(
        &[
            1, 0, 1, 0, 0, 0, 0, 0, 40, 0, 0, 0, 0, 0, 0, 0, 0, 0, 0, 0, 8, 0, 0, 0,
        ],
        Field::Count,
        1,
        2,
    ),
    Broken(
        &[0, 0, 255, 255, 0, 0, 0, 0, 28, 0, 0, 0],
        Field::Count,
        65_535,
        124,
    ),
    Broken(
        &[1, 0, 84, 0, 0, 0, 0, 0, 28, 0, 0, 0],
        Field::Count,
        84,
        83,
    ),
    // The entries end elsewhere; a key has 129 bytes; an entry equal to the high fence.
    Broken(
        &[0, 0, 0, 0, 0, 0, 0, 0, 29, 0, 0, 0],
        Field::Offset,
        29,
        28,
    ),
    Broken(
        &[0, 0, 1, 0, 0, 0, 0, 0, 165, 0, 0, 0, 129, 0],
        Field::Offset,
        129,
        128,
    ),
    Broken(
        &[
            0, 0, 1, 0, 0, 0, 0, 0, 46, 0, 2, 0, 1, 0, 7, 6, 0, 0, 0, 1, 0, 1, 0, 7, 6, 0, 0, 0, 1,
            0,
        ],
        Field::Entry,
        0,
        1,
    ),
];

// A leaf without entries.
const EMPTY: &[u8] = &[0, 0, 0, 0, 0, 0, 0, 0, 28, 0, 0, 0];

// The field of which a page is damaged.
fn field_of(checked: Result<(), Damaged>) -> Option<Field> {
    match checked {
        Ok(()) => None,
        Err(damage) => Some(damage.field),
    }
}

// The owner of the leaf without entries, and the field of which it is damaged there.
struct Owned(u32, Option<Field>);

impl Case for Owned {
    fn holds(&self, _alloc: Global) -> Result<bool, Fail> {
        Ok(field_of(check_of(EMPTY, self.0)) == self.1)
    }
}

// The common part is tested.
const OWNED: &[Owned] = &[Owned(5, None), Owned(6, Some(Field::Owner))];

#[test]
fn lawful_pages_are_read_and_others_refused_at_the_first_field_that_differs(
    rt: HostRuntime,
) -> Result<(), Fail> {
    hold_each(&rt, rt.alloc(), LAWFUL)?;
    hold_each(&rt, rt.alloc(), JUDGED)?;
    hold_each(&rt, rt.alloc(), DAMAGED)?;
    hold_each(&rt, rt.alloc(), OWNED)
}
