//! The course of a statement of a session, over any keeper of records: its beginning, one step, so
//! many steps, and all steps until it waits or is at its end.
//!
//! Owns: the trait `Statements`, a keeper on which statements run, with its meaning (`specs/Running`), and that every
//! keeper of records is one, whose runs are the statements of `mg_exec` (`any`, `specs/AnyRuns`);
//! `Tends`, a keeper whose changed pages can be written one by one, and that collects what statements come to;
//! `Work`, a statement that has begun, a COMMIT among them; `start`, `step`, `step_on`, `take`, `run`. The last three
//! collect what each step visited, behind it (`specs/Aside`).
//!
//! What is done is said by `mg_transcript` (`Starts`, `Steps`, `Takes`, `Runs`): for each history that
//! the keeper stood for, and each course at which the work stood. `specs/Working` says when it stands
//! there, and when its next step may be made. What other transactions do beside it changes nothing of
//! that (`BesideLaws`). No crash loses what was durable before (`specs/Carrying`).
//!
//! Invariant: none, it keeps no state.
//! Below: `mg_exec`, `mg_exec_course_laws`, `mg_calls`, `mg_transcript`. Above: sessions.
//! Not here: which statement a session runs, and what is printed.
#![tactic(auto)]

mod any;
mod aside;
mod laws;
mod starting;
mod statements;
mod stepping;
mod tending;
mod work;

pub use aside::step_on;
pub use laws::works_stay_beside_others;
pub use starting::{Started, start};
pub use statements::{Ending, Statements, Stepped};
pub use stepping::{run, take};
pub use tending::Tends;
pub use work::{Work, step};
