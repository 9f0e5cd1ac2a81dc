//! The command that prints the figures of a file: a line for each field of its header, for the sweep and the pages, a line
//! for each table, and one for each transaction in limbo.
//!
//! Owns: the command (`tell_stat`), over any disk and any sink, and the text of the figures (`stat_text`). Where something
//! is found in the file, the one line is printed that says it. The disk is read once and nothing is written. The lines
//! stand in `docs/SCRIPT.md`.
//!
//! Invariant: none, it keeps no state. It has the pages of the disk in memory while it works, and the text.
//! Below: `mg_overview`, which reads the disk; `mg_file_figures`, for the figures; `mg_script`, for words, numbers and
//! the texts of refusals; `mg_limbo_report`, for how such a command ends; `mg_run_ends`, for lines that take no memory.
//! Above: `mg_program`.
//! Not here: what the figures are, the words that ask for them, and how a file becomes a disk.
#![tactic(auto)]

mod looking;
mod telling;
mod text;

pub use telling::tell_stat;
pub use text::put_stat;
