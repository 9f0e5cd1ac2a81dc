//! The indexes of tables in overlays: each index of each table has its tree in every overlay, and finds
//! there what it found in the overlay from which it comes.
//!
//! Owns: the indexes of an image as a list of trees (`trees_in`), that share no page (`AreIndexes`);
//! that each has its tree in every overlay (`EveryIndex`), beside what `mg_image_overlay_laws` keeps of
//! records; and what a batch is to all indexes at once (`ChangesIndexes`): a row of steps of each.
//! An insertion into one index, with its splits up to the root, is such a row of that index, and for
//! each other one it is a change beside it. So are the entries of all indexes of one row, its data
//! page, and a removal: one after another, in one batch, they are joined (`ChangesJoin`), and the orders
//! of such a batch close no cycle (`InsertionsCloseNoCycle`).
//!
//! Definitions: `specs/IndexTrees`, `IndexBatches`, `IndexOrders`; laws: `Laws`; the other files prove
//! them. There is no program here: each function does nothing, and its contract is a law.
//!
//! Invariant: none, it keeps no state.
//! Below: `mg_tree_overlay_laws`, one tree in overlays; `mg_btree`, whose insertions and removals these are;
//! `mg_image`, sound images. Above: the engine, which wants each shown row found in its indexes.
//! Not here: which entries a row has, the versions of records, and when an entry may go.
#![tactic(auto)]

mod laws;

pub use laws::{
    batches_change_each_index, changes_are_joined, every_overlay_has_its_indexes,
    insertions_into_several_indexes_close_no_cycle, rows_are_found_in_overlays,
    sound_images_have_their_indexes,
};
