//! What scripts come to that several sessions obey at once: one history, in which their steps lie between one another.
//!
//! Owns: the definition of such a history (`specs/Interleavings`), made of the steps of statements as one script has
//! them: a session takes its next line, or a statement of it that has begun takes a step, in any order. What each
//! session is answered, and at which of its lines it is, stands beside the history. Of statements that wait: one goes
//! on where what it waits for is over; else it is tried once more, and where it comes to wait for the same
//! transaction again, it has waited too long, and is taken back (`TimesOut`).
//!
//! And what a session is answered then (`Answered`), with its text; and how a statement is given up over any keeper of
//! records (`give_up`).
//!
//! The laws (`specs/..Laws`): such a history is legal; a session is never past its last line; and it has been
//! answered once for each of its statements that it has passed.
//!
//! Invariant: none, it keeps no state.
//! Below: `mg_transcript`, which says what a statement does step by step. Above: what sessions on threads share.
//! Not here: in which order steps come, and how long a session looks before it tries again.
#![tactic(auto)]

mod answered;
mod answering;
mod giving_up;
mod laws;

pub use answered::Answered;
pub use answering::answered_text;
pub use giving_up::give_up;
pub use laws::{
    answers_are_each, begun_are_next, begun_are_own, histories_are_legal, places_are_within,
};
