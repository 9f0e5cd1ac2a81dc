//! The overlays of closed sets of dirty pages: what a crash may leave of a page cache, and the images
//! in which some of the active transactions count as done.
//!
//! Owns: one family of statements (`EveryOverlay`) and the laws that keep it. Of every closed set of
//! dirty pages, and every choice of active transactions whose pages the set has, the overlay is as it
//! has to be when the chosen ones count as in limbo and the other active ones as dead. With nobody
//! chosen it speaks of every image that a crash may leave; with one chosen that needs no page any
//! more, of what its commit will leave; with all chosen and all dirty pages, of the pool itself.
//!
//! What an image has to be (`Keeping`) is a parameter here: a relation between what has become of the
//! transactions, the pool's image and the overlay. A batch is judged once, laid in part on any one
//! image that is as it has to be (`LaysBatch`, `KeepsLaid`).
//!
//! All stands in `specs/`: the definitions in `Overlays`, and in `Views` for batches of several
//! pages; the laws in `Laws`; `BatchLaws` and `StateLaws` prove them. There is no function here, since
//! a contract speaks of no statement that is left open: `mg_image_overlay_laws` has them as contracts, of
//! what it says an image has to be.
//!
//! Invariant: none, it keeps no state.
//! Below: `mg_careful`, closed sets and overlays. Above: `mg_image_overlay_laws`, which says what an overlay
//! has to be, and `mg_pool_overlay_laws`, which ties the laws to the page cache.
//! Not here: pages, records, and the page cache that writes them.
#![tactic(auto)]
