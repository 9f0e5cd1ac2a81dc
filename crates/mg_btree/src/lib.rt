//! Index trees: an entry is looked for from the root down, put in, and taken out.
//!
//! Owns: the search in a tree over the pages as one sees them who fills a batch. It goes down from the
//! root, on each level to the right as far as the page whose high fence lies behind the entry, since a
//! crash may have left a page in the chain of its level that no page above names.
//!
//! A tree is the ordered set of the entries that are found from its root (`Finds` of mg_image).
//! `range_step` gives the least of them in a range, `walk_from` and `walk_on` give one after another
//! (the leaf is kept, and after it only right neighbours are read), `insert` adds one, `remove` takes one out and tells
//! whether it was there. What a call does to a tree it tells as a row of steps of the pool's own pages
//! (`ChangesTree` of mg_tree_overlay_laws), from which follows what it does to every image that a crash may
//! leave.
//!
//! A page is taken only where one splits, and a page splits only where the entry that it is to have
//! does not fit. Splits go from the top down: the page above gets room for the fence between two halves
//! before a page splits. The root keeps its page: its halves go to two new ones.
//!
//! A call looks at no more than it needs, so it speaks of damage only where it met some: no tree stands
//! there then. Of the pages above the one that it goes to it tests the common part and the level alone. Where pages lead in a circle the call ends: it makes as many steps on a level as a file
//! has pages, at most.
//!
//! Invariant: none, it keeps no state.
//! Below: `mg_space`, for pages and batches; `mg_node` and `mg_node_writing`, for single pages;
//! `mg_tree_overlay_laws`, the laws. Above: the engine, which has a tree for each index.
//! Not here: which table an index belongs to, and how a key is spelled in bytes.
#![tactic(auto)]

mod growing;
mod halves;
mod inserting;
mod laws;
mod making;
mod node;
mod on_page;
mod ordering;
mod range;
mod removing;
mod root;
mod search;

pub use inserting::insert;
pub use laws::inserted_orders_close_no_cycle;
pub use range::{Step, Walk, range_step, walk_from, walk_on};
pub use removing::remove;
