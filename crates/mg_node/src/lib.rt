//! The index page, a leaf or an inner page: an ordered set of entries between two fences, with a
//! right neighbour on its level.
//!
//! Owns: a page of kind 7.
//!
//! | at | width | field |
//! |---|---|---|
//! | 0 | 16 | common part |
//! | 16 | 2 | level, 0 for a leaf |
//! | 18 | 2 | count of the entries |
//! | 20 | 4 | page number of the right neighbour, 0 for none |
//! | 24 | 2 | end of the entries |
//! | 26 | 2 | bit 0: there is a low fence; bit 1: there is a high fence |
//! | 28 | | the low fence, the high fence, the entries |
//!
//! A fence or an entry is: length of the key (2), key bytes, record page (4), record slot (2), and
//! in the entries of an inner page the child page (4).
//!
//! Invariant (`IsNodePage`): entries are ordered by key bytes, then record page, then slot, all
//! different, at least the low fence and less than the high one; a key has at most P / 8 bytes. The
//! first entry of an inner page equals its low fence, and where there is none it has an empty key
//! and record 0, 0.
//! Below: `mg_base`, for fields, and the tests of a page. Above: `mg_node_writing`, which changes
//! such pages; the index trees, and the plain reading of an image.
//! Not here: whether a child or a neighbour leads to a page of the index.
#![tactic(auto)]

mod check;
mod entry;
mod in_place;
mod lawful;
mod node;
mod placed;
mod readers;
mod walk;

pub use check::check_node;
pub use entry::{
    CHILD_LEN, CONTENT_AT, COUNT_AT, END_AT, Entry, FENCES_AT, KEY_AT, LEVEL_AT, NODE_KIND,
    RECORD_LEN, RIGHT_AT,
};
pub use in_place::order_with;
pub use lawful::{have_same_place, is_below, is_up_to, order};
pub use node::{Node, check_node_common, read_node};
pub use readers::{entry_at, high_of, level_of, low_of, right_of};
pub use walk::{
    FAR, count, end_of, first_at, has_high, has_low, high_at, is_inner, least_len, place,
};
