//! What sessions on threads of their own share: a keeper of records, the script of each session, at which line it is,
//! and what it was answered. One call is one step of one session, or a page that is written.
//!
//! Owns: `Stage`, all of this, with its two steps: `next`, the next step of a session, and `flush`; `Floor`, a stage as
//! a value that threads share (`Served` of `mg_turn`); `by_session`, which cuts a script by its sessions.
//!
//! What a step comes to (`specs/Coming`): for each history that the stage stood for (`Stands`) there is a longer one,
//! which is one of sessions that obey their scripts at once (`Interleaves` of `mg_interleavings`), and for which it
//! stands now; no crash loses what was durable. A refusal by which the run stops has its cause in the keeper's counts.
//! So nothing has to be said of which thread calls, how often, and in which order: the stage knows where each session
//! is, and a call that comes out of place changes nothing.
//!
//! Invariant (`IsStage`): the keeper and the sessions are ready for each other, and each script has lines of its session
//! alone.
//! Below: `mg_sessions`, `mg_courses` and `mg_pending` for the steps; `mg_interleavings`; `mg_turn`. Above: `mg_storm`.
//! Not here: threads, and how long one looks before it tries a statement again that waits. Collection and the sweep are
//! calls of the floor that do nothing so far.
#![tactic(auto)]

mod begun;
mod board;
mod floor;
mod giving_up;
mod lines;
mod stage;
mod stepping;
mod taking_up;

pub use board::Board;
pub use floor::{Call, Floor, Told};
pub use lines::{SessionLines, by_session};
pub use stage::{MOST_POLLS, Stage};
