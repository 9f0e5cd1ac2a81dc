//! What an index page is made of.

use mg_base::{Bytes, PageNo, RecId};

/// The kind of an index page: byte 0 of the common part.
pub const NODE_KIND: u8 = 7;
/// Where an index page has its level, width 2.
pub const LEVEL_AT: usize = 16;
/// Where an index page has the count of its entries, width 2.
pub const COUNT_AT: usize = 18;
/// Where an index page names its right neighbour, width 4.
pub const RIGHT_AT: usize = 20;
/// Where an index page says where its entries end, width 2.
pub const END_AT: usize = 24;
/// Where an index page says which fences it has, width 2.
pub const FENCES_AT: usize = 26;
/// Where the fences and the entries begin.
pub const CONTENT_AT: usize = 28;
/// Where an entry has its key, behind the key's length.
pub const KEY_AT: usize = 2;
/// How long the record of an entry is, behind its key: page and slot.
pub const RECORD_LEN: usize = 6;
/// How long the child of an inner page's entry is, behind the record.
pub const CHILD_LEN: usize = 4;

/// An entry of an index page, or a fence.
#[derive(Debug, Drop)]
pub struct Entry {
    pub key: Bytes,
    /// The primary slot of the record that has the key.
    pub rec: RecId,
    /// The page of the level below, 0 in fences and in a leaf's entries.
    pub child: PageNo,
}
