//! A directory of keys is made by one pass over the records of a table: each record is noted under the
//! key that is read of it.
//!
//! Owns: when a directory is built (`IsBuilt`), and how a table gets one (`Makes`).
//!
//! The pages are only read (`KeepsStore`). Want of memory, or of room in the directory, is no fault: the
//! directory is not made then, and whoever wanted it goes without.
//!
//! Below: `mg_directory`; `mg_seek`, which reads the key of a record. Above: the engine.
//! Not here: which records a table has, and when a directory is wanted.
#![tactic(auto)]

mod building;
mod making;

pub use making::make_directory;
