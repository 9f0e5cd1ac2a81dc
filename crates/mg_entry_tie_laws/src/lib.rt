//! Insertions into indexes, as the laws on entries take them: what `insert` of mg_btree promises of a batch makes it a
//! batch of entries (`LaysEntries` of mg_entry_overlay_laws), and tells how many pages it takes.
//!
//! Owns: these two laws (`InsertionsLay`, and so `InsertionsKeep`; `InsertionsTakeFew`). An insertion changes pages of its own tree and of the page
//! inventory alone (`LeavesPages`). So in a layout that has the index that tree changes by its row of steps, and each
//! other one stays; one that doesn't have the table, since whoever has made it counts as dead, has none of these pages
//! (`IsIndexFor`), and all of its trees stay. The pages that it takes are those that the tree has more (`TakesThese`):
//! one for each level at most, and two for the root, so eighteen at most. Nor is it refused for anything but want of pages
//! or of memory (`InsertionsMeetNone`), and its batch is lawful (`InsertionsAreLawful`), since no tree is high.
//!
//! Definitions: `specs/IndexPlaces`; laws: `Laws`; the other files prove them. There is no program here: each function
//! does nothing, and its contract is a law.
//!
//! Invariant: none, it keeps no state.
//! Below: `mg_btree`, whose insertions these are; `mg_index_overlay_laws`, an index that stays; `mg_entry_overlay_laws`, what a batch
//! of entries is; `mg_free_page_laws`, how free pages are counted. Above: the engine, once it lays the entries of rows.
//! Not here: which entries a row has.
#![tactic(auto)]

mod laws;

pub use laws::{insertions_lay, insertions_meet_none, insertions_take_few};
