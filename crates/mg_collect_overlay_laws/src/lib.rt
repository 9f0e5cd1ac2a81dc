//! Collection in overlays: what a batch owes that frees the cells of versions which nobody sees, from the
//! pool's change to every overlay.
//!
//! Owns: these batches as steps of pages. A committed version comes to lead past some of those behind it, or nowhere,
//! and their cells are freed (`SkipsKeep`); or a record goes whose newest version is a committed deletion: its slot is
//! freed, and then its cells (`GoneKeeps`). Cells are freed one after another (`FreesAll`), each on a page
//! that comes only after that of the version, or of the slot, which led to them.
//!
//! It is nobody's work: the same whoever is chosen, and the history is as it was. An overlay without the
//! first page keeps the longer record, which shows the same. One with it has the record's versions as the
//! pool, and maybe others among them and behind them, so no other record of it comes to a cell that is freed.
//!
//! All stands in `specs/`: `Frees` for cells that no record reads, `SkipFree` and `GonePart`. There is no
//! program here: each function does nothing, and its contract is a law.
//!
//! Invariant: none, it keeps no state.
//! Below: `mg_image_overlay_laws`, the step that skips versions, and that a dead version is taken out. Above:
//! the engine, which collects.
//! Not here: who sees what.
#![tactic(auto)]

mod laws;

pub use laws::{collections_keep, gone_records_keep};
