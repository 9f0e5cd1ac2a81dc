//! The space of a database file: what its pages demand of each other, how a page is read by one who
//! fills a batch, and how a new page is taken.
//!
//! Owns: the links of the file's format (`FireLinks`), and the page inventory as a whole: which
//! pages of the file are used.
//!
//! A call that changes pages fills a batch that its caller lends. It sees a page as the batch has
//! it, and where the batch has none, as the cache shows it (`viewed`). It leaves the cache as it
//! was but for what it read (`KeepsStore`): its contract says what it does to the pages as viewed.
//! A page is read in two steps: `hold` makes it readable, and `lent` lends its bytes, so who reads
//! copies what he keeps and nothing else. `passes` tells that the cache has tested a page already, and
//! `known_room` how much room a data page has, where the cache has noted it.
//! After a fault the batch may have a part of the changes; the caller drops it.
//!
//! Invariant: none of its own; it keeps that of the cache (`IsPool`), and each content of a batch
//! is one page long, and that of a page below the page limit (`AreWhole`).
//! Below: `mg_pool` for pages and batches, the crates of each kind of page, `mg_image` for what an
//! inventory says. Above: `mg_heap`, `mg_btree` and `mg_txlist`, which change pages.
//! Not here: which table or tree a page belongs to, and when a batch is changed.
#![tactic(auto)]

mod cells;
mod demands;
mod fault;
mod fields;
mod lending;
mod links;
mod reading;
mod rooms;
mod stacked;
mod taking;

pub use demands::places_of;
pub use fault::SpaceFault;
pub use lending::{hold, lent, passes};
pub use links::{
    BIT, DATA, FireLinks, HEADER, NEXT, NODE, POINTER, Store, TRANSACTIONS, TREE, VERSION,
};
pub use reading::{Found, find_page, page_of};
pub use rooms::{known_room, note_room};
pub use stacked::check_page;
pub use taking::{inventory_page_of, region_len, take_page};
