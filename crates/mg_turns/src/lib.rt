//! The turn of a line: what the line does itself, and then, one after another, each statement goes on whose waiting
//! is over, the first of them first, until none is left or the run stops by an answer.
//!
//! Owns: `take_turn`, over any keeper of records. What comes of it is `Acts` of `mg_transcript`, for each history
//! that the keeper stood for; how it ends is `EndsAs`.
//!
//! That a turn ends: a statement that goes on is at its end, or waits again. That it then waits for an active
//! transaction only a history tells, so the code asks for it (`TurnEnd::InVain`), and the contract says that where
//! the keeper stands for a history this does not come.
//!
//! Invariant: none of its own; that of the sessions is `AreReady` of `mg_pending`.
//! Below: `mg_sessions`, what a line does itself and how a statement goes on. Above: whole scripts.
//! Not here: `@prepare` and the end of a script.
#![tactic(auto)]

mod turn;

pub use turn::{Taken, TurnEnd, take_turn};
