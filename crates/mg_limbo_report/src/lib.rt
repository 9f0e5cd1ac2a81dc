//! The command that prints the transactions in limbo of a file.
//!
//! Owns: the command (`tell_limbo`), over any disk and any sink; how a command ends that only looks at a file (`LookEnd`),
//! with its status, and the refusal for what is found in one (`refusal_of`); and the lines, `LIMBO n` for each transaction
//! in limbo, ascending, or the one line that says why the list is not told. The disk is read once and nothing is written.
//!
//! Invariant: none, it keeps no state. It has the pages of the disk in memory while it works.
//! Below: `mg_overview`, which reads the disk; `mg_limbo_list`, for the list; `mg_script`, for the texts of refusals;
//! `mg_run_ends`, for statuses. Above: `mg_stat_report`, which ends so too, and `mg_program`.
//! Not here: the words that ask for it, and how a file becomes a disk.
#![tactic(auto)]

mod ending;
mod listing;
mod telling;
mod text;

pub use ending::LookEnd;
pub use listing::{field_of, refusal_of};
pub use telling::tell_limbo;
