//! Complete directories: of a table that has one, each record that has versions is noted under their
//! key. So who speaks for a key is found among its candidates.
//!
//! Owns: what it is to be complete (`IsNoted`, `HasNoted`), an equation on the pages that names no
//! event of a history, and what keeps it: each record that has versions had versions of the same
//! table with the same key, or it is noted (`ComeFrom`).
//!
//! There is no program here: each function's contract is a law.
//! Below: `mg_directory`, `mg_seek`, and `mg_engine_step_laws` for what writes and ends do to pages.
//! Above: the engine, once it has directories.
//! Not here: how a record is looked at, and when a directory is made.
#![tactic(auto)]

mod laws;

pub use laws::{a_directory_tells_who_speaks, directories_stay_complete};
