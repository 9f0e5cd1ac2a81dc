//! The lines of a script, over any keeper of records: what each session does, what it is answered, and
//! which statements that waited go on.
//!
//! Owns: `obey`, which does what a line itself does, and `resume`, by which a statement goes on whose
//! waiting is over. Who obeys lines step by step finds the beginning of one in `read`, `begin` and `hold_own`.
//!
//! What is done is said by `mg_transcript` (`Does`, `Runs`): for each history that the
//! keeper stood for and each list of unfinished statements with which the sessions agreed (`StandAt` of
//! `mg_pending`). No crash loses what was durable before (`Carries` of `mg_courses`), and a refusal that
//! is answered has its cause in the keeper's counts (`specs/Accounts`). What the steps of one statement leave of
//! all others follows by `GoLaws`, `HoldingLaws` and `StatementLaws`.
//!
//! Where memory is short before anything is done, a line says so. Room for a statement that has to wait
//! is made before it begins, so that a statement that was told to wait is always kept.
//!
//! Invariant: none of its own; that of the sessions is `AreReady` of `mg_pending`.
//! Below: `mg_pending`, `mg_courses`, and `mg_shorthand` for `@put` and `@get`. Above: the program.
//! Not here: `@sweep` and `@prepare`, what `@put` and `@get` do in their transaction, which
//! statement goes on at a line, and where lines come from and go to.
#![tactic(auto)]

mod collecting;
mod holding;
mod line;
mod shorthand;
mod statements;
mod tending;

pub use holding::resume;
pub use line::obey;
pub use statements::{begin, hold_own, read};
