//! Cells and their bytes.

use super::cases::{Case, hold_each};
use mg_base::{Bytes, PageNo, RecId, TxNo};
use mg_version::{Cell, CellFault, Link, Version, read_cell, write_cell};
use std::alloc::Global;
use std::test::Fail;

/// A link: a page, a slot and a transaction.
type To = (u32, u16, u32);

/// A cell as the tests write it: an anchor; or a version with its format, its transaction, its back
/// pointer and its body, or the deletion of a row that way.
#[derive(Clone, Copy)]
enum Told {
    Anchor(To),
    Version(u16, u32, Option<To>, &'static [u8]),
    Deletion(u16, u32, Option<To>, &'static [u8]),
}

fn link_of(to: To) -> Link {
    let (page, slot, tx) = to;
    Link {
        rec: RecId {
            page: PageNo(page),
            slot,
        },
        tx: TxNo(tx),
    }
}

fn back_of(back: Option<To>) -> Option<Link> {
    match back {
        Some(to) => Some(link_of(to)),
        None => None,
    }
}

/// The version of a format and a transaction.
fn version_of(
    alloc: Global,
    deleted: bool,
    numbers: (u16, u32),
    back: Option<To>,
    body: &[u8],
) -> Result<Version, Fail> {
    Ok(Version {
        primary: false,
        deleted,
        format: numbers.0,
        tx: TxNo(numbers.1),
        back: back_of(back),
        body: Bytes::new(body.to_vec(alloc)?),
    })
}

/// The cell that is told.
fn cell_of(alloc: Global, told: Told) -> Result<Cell, Fail> {
    Ok(match told {
        Told::Anchor(to) => Cell::Anchor(link_of(to)),
        Told::Version(format, tx, back, body) => {
            Cell::Version(version_of(alloc, false, (format, tx), back, body)?)
        }
        Told::Deletion(format, tx, back, body) => {
            Cell::Version(version_of(alloc, true, (format, tx), back, body)?)
        }
    })
}

/// What is read of bytes.
fn read(alloc: Global, bytes: &[u8]) -> Result<Cell, CellFault> {
    if bytes.len() >= 2_147_483_648 {
        return Err(CellFault::Memory);
    }
    read_cell(alloc, bytes)
}

/// Writes a cell, if it is one that may be written, and tells so.
fn write(cell: &Cell, out: &mut Vec<u8>) -> Result<bool, Fail> {
    match cell {
        Cell::Anchor(_) => write_cell(cell, out)?,
        Cell::Version(version) => {
            if version.primary {
                return Ok(false);
            }
            if version.format == 0 {
                return Ok(false);
            }
            write_cell(cell, out)?;
        }
    }
    Ok(true)
}

/// Tells whether a cell is written as these bytes.
fn is_written(alloc: Global, cell: &Cell, bytes: &[u8]) -> Result<bool, Fail> {
    let mut out = Vec::new(alloc);
    let done = write(cell, &mut out)?;
    Ok(done && out.as_slice() == bytes)
}

/// Tells whether a version is that of these parts.
fn is_version(
    version: &Version,
    deleted: bool,
    numbers: (u16, u32),
    back: Option<To>,
    body: &[u8],
) -> bool {
    version.deleted == deleted
        && !version.primary
        && version.format == numbers.0
        && version.tx == TxNo(numbers.1)
        && version.back == back_of(back)
        && version.body.as_slice() == body
}

/// Tells whether a cell is the one that is told.
fn is_told(cell: &Cell, told: Told) -> bool {
    match (cell, told) {
        (Cell::Anchor(link), Told::Anchor(to)) => *link == link_of(to),
        (Cell::Version(version), Told::Version(format, tx, back, body)) => {
            is_version(version, false, (format, tx), back, body)
        }
        (Cell::Version(version), Told::Deletion(format, tx, back, body)) => {
            is_version(version, true, (format, tx), back, body)
        }
        _ => false,
    }
}

/// A cell with a copy of what it holds.
fn cell_with_copy(alloc: Global, cell: &Cell) -> Result<Cell, Fail> {
    Ok(match cell {
        Cell::Anchor(link) => Cell::Anchor(link.copy(alloc)?),
        Cell::Version(version) => Cell::Version(version.copy(alloc)?),
    })
}

/// Tells whether copies of a cell are written as these bytes.
fn are_copies_written(alloc: Global, cell: &Cell, bytes: &[u8]) -> Result<bool, Fail> {
    let whole = is_written(alloc, &cell.copy(alloc)?, bytes)?;
    Ok(whole && is_written(alloc, &cell_with_copy(alloc, cell)?, bytes)?)
}

/// A cell and its bytes.
type Stored = (Told, &'static [u8]);

const ANCHOR: Stored = (Told::Anchor((6, 1, 1)), &[1, 6, 0, 0, 0, 1, 0, 1, 0, 0, 0]);

/// The packed row K = 1, V = 10 of transaction 1, in format 1.
const FIRST: Stored = (
    Told::Version(1, 1, None, &[2, 0, 1, 0xf9, 0, 1, 10, 0xf9, 0]),
    &[2, 0, 1, 0, 1, 0, 0, 0, 2, 0, 1, 0xf9, 0, 1, 10, 0xf9, 0],
);

/// By transaction 258 in format 3, of a row without bytes, behind the version at page 65,541, slot 7,
/// of transaction 257.
const DELETION: Stored = (
    Told::Deletion(3, 258, Some((65_541, 7, 257)), &[]),
    &[2, 3, 3, 0, 2, 1, 0, 0, 5, 0, 1, 0, 7, 0, 1, 1, 0, 0],
);

/// A cell that is written as its bytes.
struct Written(Stored);

impl Case for Written {
    fn holds(&self, alloc: Global) -> Result<bool, Fail> {
        let (told, bytes) = self.0;
        let cell = cell_of(alloc, told)?;
        is_written(alloc, &cell, bytes)
    }
}

/// Cells are written as their bytes.
const WRITTEN: &[Written] = &[Written(ANCHOR), Written(FIRST), Written(DELETION)];

/// A cell that is read of its bytes, and of which copies are written so again.
struct Copied(Stored);

impl Case for Copied {
    fn holds(&self, alloc: Global) -> Result<bool, Fail> {
        let (told, bytes) = self.0;
        match read(alloc, bytes) {
            Ok(cell) => Ok(is_told(&cell, told) && are_copies_written(alloc, &cell, bytes)?),
            Err(_) => Ok(false),
        }
    }
}

/// Cells are read of their bytes.
const COPIED: &[Copied] = &[Copied(ANCHOR), Copied(FIRST), Copied(DELETION)];

/// Bytes that are no cell, and where they go wrong, a fault that is copied.
struct Refused(&'static [u8], u32);

impl Case for Refused {
    fn holds(&self, alloc: Global) -> Result<bool, Fail> {
        let fault = CellFault::BadCell { at: self.1 };
        Ok(read(alloc, self.0).err() == Some(fault) && fault.copy(alloc) == Ok(fault))
    }
}

/// What is no cell is refused where it goes wrong.
const REFUSED: &[Refused] = &[
    Refused(&[], 0),
    Refused(&[0], 0),
    Refused(&[3, 0, 1, 0, 1, 0, 0, 0], 0),
    Refused(&[1, 6, 0, 0, 0], 5),
    Refused(&[1, 6, 0, 0, 0, 1, 0, 1, 0, 0, 0, 0], 11),
    Refused(&[2], 1),
    Refused(&[2, 4, 1, 0, 1, 0, 0, 0], 1),
    Refused(&[2, 0, 0], 3),
    Refused(&[2, 0, 0, 0, 1, 0, 0, 0], 3),
    Refused(&[2, 0, 1, 0, 1, 0, 0], 7),
    Refused(&[2, 2, 1, 0, 1, 0, 0, 0], 8),
    Refused(&[2, 3, 1, 0, 1, 0, 0, 0, 5, 0, 0, 0, 7, 0, 1, 0, 0], 17),
];

#[test]
fn cells_are_written_and_read_as_their_bytes_and_others_are_refused_where_they_go_wrong(
    rt: HostRuntime,
) -> Result<(), Fail> {
    hold_each(&rt, rt.alloc(), WRITTEN)?;
    hold_each(&rt, rt.alloc(), COPIED)?;
    hold_each(&rt, rt.alloc(), REFUSED)
}
