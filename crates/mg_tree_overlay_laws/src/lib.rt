//! Index trees in overlays: a batch that adds an entry to an index, or removes one, keeps the tree of
//! every image that a crash may leave, whichever of its pages, and of earlier ones, are written.
//!
//! Owns: the steps of a tree, and what each keeps. A batch is a row of steps of the pool's own tree
//! (`ChangesTree`). A page splits: its new right neighbour is in place, the page comes to name it, and
//! the page above comes to name it too (`Splits`, `Names`); where that page has no room it is split
//! before, so splits run from the top down. The root's content goes to two new pages (`Grows`). At last
//! a leaf changes in place (`Rewrites`). What a step says, it says of contents alone: it is a step of
//! every image that has these contents.
//!
//! The image's tree is behind the pool's (`IsTreeBehind`): it has no page that the pool's tree has not,
//! and each page that no page of the pool's tree names is in it. With the orders of a split (right page
//! and bit before the left page, left page before the one above) an image that has the new page above
//! has the left page in its chain below. That is all that is asked of earlier batches; which content
//! a page has in the image, older or newer, plays no part.
//!
//! "Found from the root" is "on a page of the bottom chain" (`FoundInLeaves`), so a split keeps what is
//! found because the two halves have the old page's entries, without a word on ways down.
//!
//! Beside these stand two laws of a tree by itself: no page stands twice in it, and it has 17 levels at
//! most, since each level has at least twice as many pages as the one above (`TreePages`).
//!
//! Definitions: `specs/TreeSteps`, `TreesBehind`, `TreeBatches`; laws: `Laws`, `TreePages`; the other
//! files prove them. There is no program here: each function does nothing, and its contract is a law.
//!
//! Invariant: none, it keeps no state.
//! Below: `mg_image`, what a tree is; `mg_overlay_laws`, what a batch leaves. Above: `mg_image_overlay_laws`, of
//! whose overlays each has such trees; `mg_btree`, whose batches are such rows.
//! Not here: which table an index belongs to, the rows that its entries stand for, pages' bytes.
#![tactic(auto)]

mod laws;

pub use laws::{
    batches_change_trees, batches_keep_trees, covering_pages, trees_are_once_and_low,
    trees_start_and_stay,
};
