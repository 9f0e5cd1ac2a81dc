//! The record that speaks for a key, found through the entries of an index.
//!
//! Owns: `records_of_key`, the records that the entries of a key name in an index, and `candidates_by_key`, those that they
//! name in the primary index of a table (`primary_index`). An entry is never believed: it may
//! have been left behind by a write that was refused, or by a crash, and name a page that was never written, or one that
//! is another table's by now. So who asks for the record that speaks looks among them as among any candidates
//! (`speaker_among_candidates` of mg_seek): each is first asked whether it is a record of the table, then whether it
//! speaks.
//!
//! Where each record that speaks for the key has the key's entry, they are enough (`entries_are_enough`): that finds the
//! one that a walk over all records of the table finds, with a few page reads for each entry of the key.
//!
//! Definitions: `specs/Records` (the records of a key), `Along` (the walk along their entries), `Enough`; `AlongLaws`
//! proves what the walk keeps.
//!
//! Invariant: none, it keeps no state.
//! Below: `mg_btree`, the walk along entries; `mg_seek`, who speaks for a key; `mg_key_entry_laws`, the laws of the entries
//! of keys. Above: the engine, once its tables have indexes.
//! Not here: which records have their entries, and who lays them.
#![tactic(auto)]

mod candidates;
mod entries;
mod laws;

pub use candidates::{candidates_by_key, primary_index};
pub use entries::records_of_key;
pub use laws::entries_are_enough;
