//! A directory in memory: the records of tables by the bytes of their keys.
//!
//! Owns: `Directories`, for each table that has one the candidates for the bytes of a key: each
//! record that was noted under these bytes, and perhaps others. A `Directory` is made beside them,
//! by one pass over a table, and then kept.
//!
//! A directory is a table of hashes without keys: of each record it has the hash of its key's
//! bytes and the link to the next one, 16 bytes, and 4 bytes for each head of a chain. So a
//! candidate that is none costs a look at the record, and is never a wrong answer.
//!
//! Beside them they remember where the row of a table in the catalog was last found, which no contract sees: it is no
//! promise, but a place to look first.
//!
//! Nothing is ever taken out of a directory but the whole of it: whoever asks looks at each
//! candidate. What can't be noted, for want of memory or since there are too many, drops the
//! table's directory. So each call that changes what it has done is done, or there is none.
//!
//! Invariant: a link leads to an earlier node, so each chain ends; all tables together have no more
//! rows than the bound, and no more tables have a directory than `MOST_TABLES`.
//! Below: `mg_base`. Above: the engine, which notes each record that it writes.
//! Not here: tables, pages, and who speaks for a key.
#![tactic(auto)]

mod directories;
mod directory;
mod hash;
mod node;
mod remembered;

pub use directories::Directories;
pub use directory::{Directory, NoteFault};

/// The most rows that all directories together have: 16 MB of nodes, and 4 MB of heads at most.
/// Chosen.
pub const MOST_NOTED: usize = 1_048_576;

/// The most tables that have a directory. Chosen.
pub const MOST_TABLES: usize = 64;
