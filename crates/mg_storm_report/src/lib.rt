//! The report of sessions that have obeyed their scripts at once: what the command for it prints.
//!
//! Owns: `report`, the whole text, and `put_replies`, its end. In this order: the lines of the opening and of the
//! history, a line for each event (`mg_trace`); `REPLIES`; the text of each bad line, in the order of the script; what
//! each session was answered, A first, one answer behind another.
//!
//! A bad line is one that no session obeys: any but a statement (`A: sql`) and one that prints nothing. So lines that
//! hold a statement, and those that begin with `@`, are bad lines here.
//!
//! Invariant: none, it keeps no state.
//! Below: `mg_trace` for the opening, `mg_interleavings` and `mg_script` for answers and bad lines. Above:
//! `mg_storm_scripts`.
//! Not here: the text of the history, which the keeper that records has, and the order of an opening's rows.
#![tactic(auto)]

mod replies;
mod reporting;

pub use replies::put_replies;
pub use reporting::report;
