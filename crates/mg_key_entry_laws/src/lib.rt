//! The entries of keys: a primary index tells the record that speaks for a key.
//!
//! Owns: the law (`EntriesTellSpeakers`) that who looks through the records which the entries of a key name, and asks of
//! each whether it stands in the table and speaks for the key, finds what a walk over all records of the table finds.
//! What it asks is that each record has the entry of its key (`IsKeyFound`), unless its newest version that is no
//! dead transaction's is a deletion that every base sees: such a record speaks for no key any more.
//!
//! Of records whose newest such version is a row, soundness of the image says so by itself (`LivingRowsAreFound`). So an
//! engine has to keep it of deletions alone; that lasts while transactions end (`KeysStayFound`), and where a version
//! of the same key is laid over others (`PushedKeysStayFound`).
//!
//! What an engine has to keep beyond soundness is `HasFound`: that, and that each row which an active transaction sees is
//! found. It stays as entries are laid (`EntriesKeepFound`).
//!
//! Definitions: `specs/KeyEntries`, `specs/KeptEntries`; laws: `Laws`; the other files prove them. There is no program here: each function
//! does nothing, and its contract is a law.
//!
//! Invariant: none, it keeps no state.
//! Below: `mg_seek`, who speaks for a key; `mg_image`, what an index finds; `mg_entry_overlay_laws`, an image after a batch of
//! entries. Above: `mg_engine_step_laws`, where pages that show a history have `HasFound`; the engine, once it seeks by indexes.
//! Not here: how the entries of a key are read (`mg_btree`), and what keeps them while records are written.
#![tactic(auto)]

mod laws;

pub use laws::{
    entries_keep_what_is_found, entries_tell_the_speaker, keys_stay_found, living_rows_are_found,
};
