//! Index entries in overlays: a batch that lays entries changes index pages and pages of the page inventory alone, and
//! keeps every overlay as it has to be.
//!
//! Owns: the law (`EntriesKeep`). A batch of entries is one that changes pages of trees by rows of steps that leave all
//! entries, takes pages that were not used, and sets their bits (`LaysEntries`). It is nobody's work and adds nothing
//! to the history, so an entry may be laid before the version of which it is, and left behind where that version
//! never comes: what is found of records is found still, and no record changes.
//!
//! What an overlay has of the batch is a tree again, behind the pool's and with each of its entries (`StandsKept`); its
//! pages are pages of the pool's trees, so no page stands twice in them (`image_once`), and the image is sound with
//! its new trees (`OtherTreesAreSound`).
//!
//! Definitions: `specs/Retreed`, `EntryBatches`; laws: `Laws`; the other files prove them. There is no program here:
//! each function does nothing, and its contract is a law.
//!
//! Invariant: none, it keeps no state.
//! Below: `mg_image_overlay_laws`, what every overlay is kept to be; `mg_tree_overlay_laws`, one tree in overlays. Above:
//! `mg_entry_tie_laws`, that an insertion of mg_btree is such a batch; the engine, which lays a row's entries before the row.
//! Not here: which entries a row has, and removals, which want more: that no row which counts has the entry.
#![tactic(auto)]

mod laws;

pub use laws::{entry_batches_keep, other_trees_are_sound};
