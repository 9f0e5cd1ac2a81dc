//! The records of a table by the bytes of their keys.

ghost use Rattle.std.specs.Prelude.{◌≡◌, ◌≤◌, ◌==◌, length, IfOk, IfErr, OnOk, OnErr};
ghost use Rattle.mg_directory.specs.Candidates.{Adds, IsStarted, room_of, under};
ghost use Rattle.mg_directory.specs.declared.directory.NoteFault.TheVariants.{Full};

use crate::MOST_NOTED;
use crate::hash::hash_bytes;
use crate::node::{Node, has_under, put_node, records_under};
use mg_base::{Memory, PageNo, RecId};
use std::alloc::Global;
use std::marker::Model;

/// The fewest heads of chains, so that a small table may grow. Chosen.
const FEWEST_HEADS: usize = 64;

/// How many rows come to a head at most, before the table is to be gone through again. Chosen.
const ROWS_A_HEAD: usize = 4;

/// Why a record is not noted.
#[derive(Clone, Copy, Debug, PartialEq, Eq)]
pub enum NoteFault {
    /// For want of memory.
    Memory,
    /// The directory has all the rows for which it has room.
    Full,
}

/// The records of a table by the bytes of their keys. The candidates for the bytes of a key are the
/// records that were noted under bytes of the same hash.
#[derive(Debug, Drop)]
pub struct Directory {
    /// The table's first pointer page.
    first: u32,
    /// Where each chain begins: 0 for nowhere, else 1 more than the place of a node.
    heads: Vec<u32>,
    nodes: Vec<Node>,
}

impl Model for Directory {
    ghost use Rattle.mg_directory.specs.Candidates.{Noted};
    ghost use Rattle.mg_directory.specs.Chains.{IsHashed, noted_in};

    ghost Value = { Noted };

    ghost view = { λ directory. noted_in directory.first directory.heads.items directory.nodes.items };

    ghost invariant = { λ directory. IsHashed directory.heads.items directory.nodes.items };
}

impl Directory {
    /// No record is noted of the table that begins with a pointer page, and there is room for so
    /// many.
    ///
    /// # Errors
    ///
    /// `Memory` only.
    pub(crate) fn new(alloc: Global, first: PageNo, rows: usize) -> Result<Directory, Memory>
        requires { rows ≤ MOST_NOTED }
        ensures { IfOk result (IsStarted first.0 rows) }
    {
        let count = rows.max(FEWEST_HEADS);
        Ok(Directory {
            first: first.0,
            heads: vec![in alloc; 0u32; count]?,
            nodes: Vec::new(alloc),
        })
    }

    /// The first pointer page of its table.
    pub fn first(&self) -> PageNo
        ensures { result.0 ≡ self.now.first }
    {
        PageNo(self.first)
    }

    /// Whether this is the directory of the table that begins with a pointer page.
    pub(crate) fn is_of(&self, first: u32) -> bool
        ensures { result ≡ (self.now.first == first) }
    {
        self.first == first
    }

    /// How many notes there are.
    pub fn notes(&self) -> usize
        ensures count { result ≡ length self.now.notes }
        ensures bound { result ≤ MOST_NOTED }
    {
        self.nodes.len()
    }

    /// The candidates for the bytes of a key, the newest first.
    ///
    /// # Errors
    ///
    /// `Memory` only.
    pub fn candidates(&self, alloc: Global, bytes: &[u8]) -> Result<Vec<RecId>, Memory>
        ensures { IfOk result (λ found. found.items ≡ under self.now bytes.now) }
    {
        let hash = hash_bytes(bytes);
        let head = self.heads[hash as usize % self.heads.len()];
        records_under(alloc, &self.nodes, hash, head)
    }

    /// Notes a record under the bytes of a key, unless it is a candidate for them already.
    ///
    /// # Errors
    ///
    /// `Memory`; and `Full` only where there is no room. Then nothing has changed.
    pub fn note(&mut self, bytes: &[u8], rec: RecId) -> Result<(), NoteFault>
        ensures ok { OnOk result (Adds self.old self.new bytes.now rec) }
        ensures err { OnErr result (self.new ≡ self.old) }
        ensures full { IfErr result (λ fault. fault ≡ Full
            → length self.old.notes ≡ self.old.room) }
    {
        let hash = hash_bytes(bytes);
        let place = hash as usize % self.heads.len();
        let head = self.heads[place];
        if has_under(&self.nodes, hash, head, rec) {
            return Ok(());
        }
        if self.nodes.len() >= room_beside(self.heads.len()) {
            return Err(NoteFault::Full);
        }
        match put_node(&mut self.heads, &mut self.nodes, hash, rec) {
            Ok(()) => Ok(()),
            Err(Memory) => Err(NoteFault::Memory),
        }
    }
}

/// How many rows there is room for beside so many heads.
fn room_beside(heads: usize) -> usize
    requires { heads ≤ MOST_NOTED }
    ensures { result ≡ room_of heads }
{
    (heads * ROWS_A_HEAD).min(MOST_NOTED)
}
