//! The entry of a row is laid by an engine: it stands for the same history, and the index finds the entry.
//!
//! Owns: this law (`EntriesStay`), also while a transaction takes its changes back (`EntriesStayMidway`). The batch of an
//! entry is nobody's work, so every overlay is kept whoever counts as
//! what; the pages show the same records in the same tables, by a layout that has other trees (`ShowsEntries`), and what
//! was found in an index is found. So an engine may lay entries before it writes a row, and stop between the two.
//!
//! Definitions: `specs/EntryStays`, `EntryMidway`; `EntryBatchLaws`, `EntryStaysLaws` and `EntryMidwayLaws` prove it.
//! There is no program here: the functions do nothing, and their contracts are the law.
//!
//! Invariant: none, it keeps no state.
//! Below: `mg_entry_tie_laws`, an insertion as a batch of entries; `mg_entry_overlay_laws`, what such a batch leaves;
//! `mg_engine_step_laws`, when an engine stands for a history. Above: the writes of an engine, once tables have indexes.
//! Not here: the row itself, and which entries a row has (`mg_entries`).
#![tactic(auto)]

mod laws;

pub use laws::{entries_stay, entries_stay_midway};
