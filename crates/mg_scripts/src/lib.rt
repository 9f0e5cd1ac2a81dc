//! Whole scripts, over any keeper of records: line after line is obeyed, and what comes of it is printed.
//!
//! Owns: `run_lines`, which takes the turn of each line and puts what it prints into a sink (`LinesEnd` says how the
//! lines came to their end); `run_script`, which begins with no session, and at the end of the lines rolls back what is
//! live (`specs/Ending`). What comes of lines is said by `mg_transcript` (`AreObeyed`, `AreCutShort`): one history
//! that the keeper stands for then. The sink has its transcript (`specs/Runs`: `PrintsSo`).
//!
//! Lines of forms that are not obeyed yet (`@sweep`, `@prepare`) are bad lines (`read_as`).
//!
//! A run stops by an answer (the disk failed, a page is damaged, memory is short), for want of memory for an answer,
//! or by a sink that failed.
//!
//! Invariant: none of its own; that of the sessions is `AreReady` of `mg_pending`.
//! Below: `mg_turns`, the turn of a line, and `mg_script_ends`. Above: the program.
//! Not here: where a script comes from, and what is printed outside of lines.
#![tactic(auto)]

mod lines;
mod printing;
mod script;

pub use lines::{LinesEnd, Ran, run_lines};
pub use script::{lines_of_scripts_can_be_obeyed, run_script};
