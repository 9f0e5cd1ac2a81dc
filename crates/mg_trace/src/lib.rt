//! The trace: the printed text of a history, a line for each event with its answer.
//!
//! Owns: `Trace`, a text that grows by whole lines, and the calls that put a line. A line has the event's
//! variant in capitals, its parts, `->` and the answer, with one blank between neighbours:
//! `CHANGE 2 KV 1 (1, 20) -> UPDATE CONFLICT BY 3`.
//!
//! The definitions stand in `specs/`: `Trees` (expressions), `Text` (events, answers, histories), `Openings` (where
//! a history begins), `Putting` (what calls put). A text says no addresses, so two expressions of one tree print the same.
//!
//! Invariant: none of its own. `Has` says that a trace has a history; each call that puts a line keeps it.
//! Where memory for a line is short, the text is cut back to whole lines, and nothing is put any more: it is
//! that of a beginning of the history.
//! Below: `mg_model` for histories, `mg_script` for values in a row and the texts of refusals. Above:
//! `mg_recording`, a keeper of records that puts the line of each of its events.
//! Not here: the order of an opening's rows, and what is printed of sessions.
#![tactic(auto)]

mod answer;
mod event;
mod expression;
mod noting;
mod opening;
mod trace;

pub use trace::Trace;
