//! The data pages of a table: a map from record number to cell. A cell is read, put into a slot or
//! freed; the records of a table are walked; and a data page with room is found, or the table gets
//! a new one.
//!
//! Owns: which data page of a table gets a cell, beside a place that is kept free too
//! (`add_apart`); how a table grows; and which pointer pages lead to a data page (`pointers_to`). A
//! table is named by its first pointer page, the owner of all its pages.
//!
//! Each call that changes pages fills a batch that its caller lends, and sees the pages as that
//! batch has them. Its contract says what it does to the pages as seen, page by page, and which
//! orders of page writes it adds: those of `FILE-FORMAT`, "a pointer to a page".
//!
//! Invariant: none of its own; it keeps that of the cache (`IsPool`), and each content of a batch
//! is one page long, of a page below the page limit (`AreWhole`). After a fault of a call that puts one page the batch is as
//! before; after one of a growing table it may have a part of the growth, and is dropped.
//!
//! A record number tells its page alone. So `cell`, `place` and `free` test that page as the data
//! page of the owner and the place that it names itself (`IsSomeData`), while the walk and the
//! growth test each page as the table's at its place. A chain of pointer pages that leads past the
//! last page of a database, or back, is refused (`IsLinkDamage`), so each call ends.
//! Below: `mg_slots` and `mg_pointer` for the bytes of a page, `mg_space` for reading and taking
//! pages. Above: `mg_chain`, which keeps the versions of records in these cells.
//! Not here: what a cell says, and when a batch is changed.
#![tactic(auto)]

mod adding;
mod apart;
mod changing;
mod growth;
mod laws;
mod listed;
mod lookup;
mod reach;
mod reading;
mod room;
mod table;
mod walk;

pub use adding::add;
pub use apart::add_apart;
pub use changing::{free, least_slot, place};
pub use laws::{tables_of_layouts_are_walked, walks_of_layouts_meet_no_damage};
pub use listed::is_record_of;
pub use reach::{owner_of, pointers_to};
pub use reading::{cell, hold_data};
pub use room::page_with_room;
pub use table::{TablePages, table_pages};
pub use walk::{hold_table_data, is_primary, next, table_data_page};
