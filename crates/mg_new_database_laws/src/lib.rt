//! Why a new database is sound, opens, and holds a history in which nothing has happened.
//!
//! # What is read of a new database, whose rows are packed, at each page size
//!
//! Owns: its header and its page of transactions pass their tests (`NewAreReadable`), so an opening that has just made
//! a database reads it; its seven pages are marked as used, its inventory has the page of the first region alone, and no
//! transaction has become anything but the system's (`NewAreUsed`, `NewHaveInventory`, `NewAreUndrawn`); its two tables
//! have one pointer page and one data page each (`NewHavePointers`).
//!
//! `specs/Readable` has what counts, the other files prove it. There is no program here: each function does nothing, and
//! its contract is a law.
//!
//! # What the data pages of a new database hold, at each page size
//!
//! Owns: cells that are put into a page one below the other stand in it, and such a page is lawful (`HasCells`,
//! `DataLaws`). So the data page of the catalog is one, and each of its cells is spelled as one (`NewHaveCatalog`); and
//! the data page of KV is one of that table, and has no cell (`NewAreEmpty`). So both tables stand on one pointer page
//! and one data page each (`NewHaveTables`).
//!
//! `specs/Data` has what counts, the other files prove it. There is no program here: each function does nothing, and
//! its contract is a law.
//!
//! # A new database is sound, whatever its page size, and holds the table KV, empty
//!
//! Owns: where the catalog and KV of a new database stand, and what is read of them (`new_layout`, `new_reading`); that
//! its image is sound (`NewAreSound`), and what opening it gives (`NewAreOpened`). The rows of its catalog are packed, in
//! whatever way their bodies code them. The one thing asked beside the bytes that were written is that each page of the
//! image has the page size (`HasWholePages`), as those of a disk in memory have (`MemDisksAreWhole`).
//!
//! `specs/NewDatabase` and `specs/Soundness` have what counts, the other files prove it: the rows of the catalog name KV
//! (`CatalogLaws`, `NameLaws`), the records are lawful and show these rows (`RecordLaws`, `RowLaws`), the other pages
//! (`PageLaws`), and all together (`SoundnessLaws`, `HeldLaws`). There is no program here: each function does nothing,
//! and its contract is a law.
//!
//! There is no program here: each function does nothing, and its contract is a law.
//!
//! Invariant: none, it keeps no state.
//! Below: `mg_format`, which makes it. Above: `mg_runs`.
//! Not here: the making of a file.
#![tactic(auto)]

mod cells;
mod databases;
mod images;

pub use cells::{new_databases_have_data_pages, new_databases_have_table_pages};
pub use databases::{disks_in_memory_are_whole, new_databases_are_sound};
pub use images::{
    new_databases_are_readable, new_databases_have_no_transactions, new_databases_have_two_tables,
};
