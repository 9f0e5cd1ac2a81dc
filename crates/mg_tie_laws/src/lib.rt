//! How the batches that each layer of pages fills keep every overlay: the ties between what the calls promise and the laws on images.
//!
//! # What `mg_space` and the cache give to the laws on overlays
//!
//! Owns: the tie between the layer's clauses and what those laws take. A page that was taken by
//! `take_page`, and made by whoever takes it, is occupied (`TakenAreOccupied`). A batch that `change` has
//! changed, after pages were read, is one of the family, and the pool has then the pages that who filled
//! it saw (`BatchIsChanged`): so a clause on views speaks of the pools before and after. And the tests of
//! a pointer page that has an entry more, or names another next page (`Pointers`).
//!
//! # What the transaction list gives to the laws on overlays
//!
//! Owns: the tie between `mg_txlist` and those laws. A number that `draw` has drawn keeps every overlay
//! (`DrawRowKeeps`), with a new page of transactions or without one: from the call's own clauses, and
//! that the list's next number was that of the header. A transaction that `mark_committed` has committed
//! is committed in every overlay (`CommitRowKeeps`), and while its bits are changed and not written yet an
//! overlay has them or not.
//!
//! # What the heap gives to the laws on overlays
//!
//! Owns: the tie between `mg_heap` and those laws. A table that gets a data page has grown as they take it
//! (`GrowthTies`), on a new pointer page too (`LinkTies`: the page is linked while it is empty, in a view
//! that no disk and no pool has). A page that is given to a table is such a growth, or none, and the table
//! ends in every layout where its pages say (`RoomTies`); a batch with nothing else keeps every overlay
//! (`SpotRowKeeps`), and the page is the table's then (`GivenPagesAre`). And a cell that is put or freed changes a data page (`CellTies`).
//!
//! The table may be one that a transaction has made and not committed (`SpotRowKeepsFor`, `GivenPagesAreFor`):
//! the pages are none of a layout that does not have it then (`OutTies`).
//!
//! All that is asked of the pages follows from the clauses of the calls and from a sound pool.
//!
//! # What version chains give to the laws on overlays
//!
//! Owns: the tie between `mg_chain` and those laws, one law for each row that a call fills into a batch of
//! its own, from the call's clause and the cache's change to every overlay:
//!
//! - `spot` (`SpotRowGives`), after which the place is what `first` asks for;
//! - `push` (`PushRowKeeps`) and `first` (`FirstRowKeeps`), whose cell may have given the table a page, on
//!   a new pointer page too, in the same batch;
//! - `replace_own`, in its cell (`PlaceRowKeeps`) or moved to another one (`MoveRowKeeps`);
//! - `back_out` (`BackRowKeeps`).
//!
//! Each stands twice: of a table that every layout has, and, with `For` at its end, of one that may be its
//! writer's own (`IsTableFor` of `mg_image_overlay_laws`); the first is an instance of the second.
//!
//! Asked is what a statement knows of the pool before the batch: whose table it is, that the record's page is
//! the table's where the table stands, and that the version may be written there. What the pages are comes
//! from the clauses alone (`FirstPages` for a record that is made, in a batch that may have others already).
//!
//! # All rows of the catalog that one statement writes
//!
//! All rows of the catalog that one statement writes, in one batch, as the laws on overlays take them.
//!
//! Owns: what such a batch is, step by step (`Fills`): a free page is taken and made, as the first pointer page
//! of a new table; orders come to it; a record of the catalog is made at a place that was given for it, where
//! the catalog may get pages each time. With the writer dead these are first versions, one after another
//! (`Filled`); with the writer in limbo the tables come to stand (`MakesNamed` of `mg_image_overlay_laws`). Together
//! they keep every overlay (`FilledCatalogKeeps`).
//!
//! And what such a batch leaves of pages (`FilledPagesStay`): one in use of another owner than the catalog is as
//! it was, since each page of a table says whose it is; one that was taken has the bytes with which it was made.
//! So the tables that stood do so still, and the new ones have their first pages.
//!
//! # The batch with a new table
//!
//! What a batch with a new table has, as the laws on overlays take it.
//!
//! Owns: that the batch of `mg_table_batch` is filled as `mg_tie_laws` says (`TablesFillCatalogs`), and has the
//! table's first pointer page among the pages that it takes; that its rows are those of the history's entries, but for
//! the number of that page (`RowsAreEntries`). And the laws of that crate for a history with an
//! entry for each row: a table's rows are entries one by one, and one batch on the pages. Every overlay is kept where
//! the pool's own image is what it has to be with the maker in limbo too (`FilledTablesGo`); and where the tables are
//! all that it has made, without data pages (`FilledTablesKeep`).
//!
//! There is no program here: each function does nothing, and its contract is a law.
//!
//! Invariant: none, it keeps no state.
//! Below: `mg_space`, `mg_txlist`, `mg_heap`, `mg_chain`, `mg_table_batch`; `mg_image_overlay_laws` and `mg_pool_overlay_laws`, the laws.
//! Above: the laws of the engine (`mg_engine_step_laws`).
//! Not here: what a batch owes to the law of careful write (`mg_demand_laws`), and collection.
#![tactic(auto)]

mod catalog;
mod chain;
mod heap;
mod space;
mod tables;
mod txlist;

pub use catalog::{filled_catalogs_keep, filled_pages_stay};
pub use chain::{
    first_versions_keep, first_versions_keep_for, given_places_keep, given_places_keep_for,
    moves_keep, moves_keep_for, pushes_keep, pushes_keep_for, replacements_keep,
    replacements_keep_for, taking_back_keeps, taking_back_keeps_for,
};
pub use heap::{given_pages_are, given_pages_are_for, given_pages_keep, given_pages_keep_for};
pub use space::{changed_batches_are, taken_pages_are_occupied};
pub use tables::{made_tables_are_kept, rows_are_entries, tables_fill_catalogs};
pub use txlist::{commits_keep, drawn_numbers_keep};
