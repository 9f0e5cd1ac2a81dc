//! Anchors, versions and links, and what can be wrong with a cell.

ghost use Rattle.std.specs.Prelude.{◌≡◌, IfOk, Ok};
ghost use Rattle.mg_version.specs.declared.cell.CellFault.TheVariants.{Memory as OutOfMemory};

use mg_base::{Bytes, Memory, RecId, TxNo};
use std::alloc::{AllocError, AllocFailed, Global};

/// The first byte of an anchor.
pub const ANCHOR: u8 = 1;
/// The first byte of a version that stands outside its primary slot.
pub const VERSION: u8 = 2;
/// The flag of a version that deletes its record (Firebird: a record that is deleted).
pub const DELETED: u8 = 1;
/// The flag of a version that has a back version.
pub const HAS_BACK: u8 = 2;

/// Where a cell says what it is: `ANCHOR` or `VERSION`, width 1.
pub const KIND_AT: usize = 0;
/// Where an anchor has the link to the newest version.
pub const NEWEST_AT: usize = 1;
/// The length of a link: page, slot and transaction.
pub const LINK_LEN: usize = 10;
/// The length of an anchor.
pub const ANCHOR_LEN: usize = 11;

/// Where a version has its flags, width 1.
pub const FLAGS_AT: usize = 1;
/// Where a version has its format, width 2.
pub const FORMAT_AT: usize = 2;
/// Where a version has its transaction, width 4.
pub const TX_AT: usize = 4;
/// Where a version has its back pointer, width 10; its packed row, where there is none.
pub const BACK_AT: usize = 8;
/// Where the packed row stands behind a back pointer.
pub const BODY_AFTER_BACK: usize = 18;

// The numbers of the file format, written once more: a slip in one of them is refused.
const _: () = prove!(ANCHOR == 1);

const _: () = prove!(VERSION == 2);

const _: () = prove!(DELETED == 1);

const _: () = prove!(HAS_BACK == 2);

const _: () = prove!(KIND_AT == 0);

const _: () = prove!(NEWEST_AT == 1);

const _: () = prove!(LINK_LEN == 10);

const _: () = prove!(ANCHOR_LEN == 11);

const _: () = prove!(FLAGS_AT == 1);

const _: () = prove!(FORMAT_AT == 2);

const _: () = prove!(TX_AT == 4);

const _: () = prove!(BACK_AT == 8);

const _: () = prove!(BODY_AFTER_BACK == 18);

/// Leads to a version: the place of its cell, and the transaction that wrote it.
#[derive(Clone, Copy, Debug, PartialEq, Eq)]
pub struct Link {
    pub rec: RecId,
    pub tx: TxNo,
}

/// A record version.
#[derive(Debug, Drop)]
pub struct Version {
    /// It stands in its record's primary slot. No such cell is written or read yet.
    pub primary: bool,
    /// It deletes its record: the row has the primary key, and NULL elsewhere.
    pub deleted: bool,
    /// The table's shape that the row was stored under, counted from 1.
    pub format: u16,
    /// The transaction that wrote it.
    pub tx: TxNo,
    /// The version before it.
    pub back: Option<Link>,
    /// The packed row.
    pub body: Bytes,
}

/// What stands in a slot of a data page.
#[derive(Debug, Drop)]
pub enum Cell {
    /// Stands in a primary slot: where the newest version of the record is.
    Anchor(Link),
    Version(Version),
}

/// Why bytes are no cell.
#[derive(Clone, Copy, Debug, PartialEq, Eq)]
pub enum CellFault {
    /// The bytes are no cell's spelling. Up to `at` they begin one, and no further.
    BadCell { at: u32 },
    Memory,
}

impl Link {
    /// An equal link.
    ///
    /// # Errors
    ///
    /// None: it takes no memory, and has the shape of every `copy`.
    pub fn copy(&self, _alloc: Global) -> Result<Link, Memory>
        ensures { result ≡ Ok self.now }
    {
        Ok(*self)
    }
}

impl Version {
    /// An equal version.
    ///
    /// # Errors
    ///
    /// `Memory` only.
    pub fn copy(&self, alloc: Global) -> Result<Version, Memory>
        ensures { IfOk result (λ v. v ≡ self.now) }
    {
        Ok(Version {
            primary: self.primary,
            deleted: self.deleted,
            format: self.format,
            tx: self.tx,
            back: self.back,
            body: self.body.copy(alloc)?,
        })
    }
}

impl Cell {
    /// An equal cell.
    ///
    /// # Errors
    ///
    /// `Memory` only.
    pub fn copy(&self, alloc: Global) -> Result<Cell, Memory>
        ensures { IfOk result (λ c. c ≡ self.now) }
    {
        match self {
            Cell::Anchor(link) => Ok(Cell::Anchor(*link)),
            Cell::Version(version) => Ok(Cell::Version(version.copy(alloc)?)),
        }
    }
}

impl CellFault {
    /// An equal fault.
    ///
    /// # Errors
    ///
    /// None: it takes no memory, and has the shape of every `copy`.
    pub fn copy(&self, _alloc: Global) -> Result<CellFault, Memory>
        ensures { result ≡ Ok self.now }
    {
        Ok(*self)
    }
}

impl From<AllocError> for CellFault {
    ghost from_gives = { λ _ fault. fault ≡ OutOfMemory };

    fn from(_: AllocError) -> CellFault {
        CellFault::Memory
    }
}

impl<T: Drop> From<AllocFailed<T>> for CellFault {
    ghost from_gives = { λ _ fault. fault ≡ OutOfMemory };

    fn from(_: AllocFailed<T>) -> CellFault {
        CellFault::Memory
    }
}
