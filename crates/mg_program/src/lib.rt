//! The program as one call: a command line is obeyed on a disk, and ends with a status.
//!
//! Owns: `mgdb`, the top call, which reads the words and is what a `main` calls (`mgdb_with` for another number of clean
//! pages in memory); `run`, which obeys the script of `run DB` on a disk that it opens and closes. Within: the lines on
//! an engine (`serving`). `gfix DB list` and `gstat DB` are calls of other crates, on a disk that no engine opens.
//!
//! The script is read whole before the disk is first asked. Where nothing stops the run, what is live at its end is
//! rolled back and the database is closed; where something does, nothing is written any more, and the disk is left as a
//! power cut would leave it.
//!
//! Invariant: none, it keeps no state between two calls.
//! Below: `mg_runs`, which says what a run promises; `mg_run_ends`, how it ends, with the script as it comes in and the
//! last line as it goes out; `mg_commands`, the words, with the options by `mg_words`; `mg_limbo_report`, the list of
//! transactions in limbo, and `mg_stat_report`, the figures; `mg_script`, the lines and texts; `mg_scripts`, the run of a
//! script over any keeper of records; `mg_engine`, the keeper; `mg_fuse`, a disk of which a number of page writes pass.
//! Above: a program's `main`, which makes the disk and the streams.
//! Not here: what a line does.
#![tactic(auto)]

mod laws;
mod running;
mod serving;
mod top;

pub use laws::{acknowledged_commits_are_held, runs_are_complete};
pub use mg_pool::CLEAN_PAGES;
pub use mg_run_ends::{RunEnd, SCRIPT_MOST, Status};
pub use mg_words::wanted_page;
pub use running::run;
pub use top::{Shelf, mgdb, mgdb_with};
