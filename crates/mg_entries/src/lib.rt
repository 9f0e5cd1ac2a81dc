//! The entries of rows: in each index of its table a row has an entry, its key bytes there with its record.
//!
//! Owns: `lay_entry` and `lay_entries`, which put them into the trees, and `keys_fit`, which tests that they are short
//! enough. Each entry is laid in a batch of its own, before the batch of the record: a crash between the two, or a second
//! batch that is refused, leaves an entry that no version of its record has, which does no harm, since who finds a record
//! by an entry asks the record itself. An entry that is there already is laid by a batch that puts no page.
//!
//! What a batch does to the tree is what `insert` of mg_btree promises (`PutsAndTakes`), so it is a batch of entries as
//! the overlays take it (mg_entry_tie_laws).
//!
//! Definitions: `specs/Entries`; `EntryLaws` proves what the functions promise.
//!
//! Invariant: none, it keeps no state.
//! Below: `mg_btree`, the trees; `mg_batches`, a batch that is changed. Above: the engine, once its tables have indexes.
//! Not here: which rows are written, and how a record is found by its entries (`mg_lookup`).
#![tactic(auto)]

mod laying;

pub use laying::{keys_fit, lay_entries, lay_entry};
