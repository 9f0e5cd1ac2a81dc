//! How a run of the program comes to its end, and what goes in and out of it as bytes: its script, and its last line.
//!
//! Owns: how a run ends (`RunEnd`) and its status (`Status`): `Ends` in `specs/` gives the status and the last line of an
//! end. The script is read from the source, whole or to the first byte that is too many (`ReadsScript`), and the line of
//! an end is put into the sink (`SaysEnd`), of which it is known what it takes (`IsPrinted`).
//!
//! Invariant: none, it keeps no state.
//! Below: `mg_script`, the lines of a script and the texts of refusals. Above: `mg_scripts`, which prints the fixed texts
//! of faults within lines; `mg_runs`, what a run promises; and `mg_program`, which runs it.
//! Not here: what a run does between the two.
#![tactic(auto)]

mod ending;
mod printing;
mod script_source;
mod status;

pub use ending::{RunEnd, SCRIPT_MOST};
pub use printing::{fixed_line, has_fixed_line, put_line, say_end};
pub use script_source::read_lines;
pub use status::Status;
