//! Refusals that tell of a fault of the disk.
//!
//! Owns: `tells_fault`, which refusals say that the disk failed in the call; `tells_failed_write`, which say that this was a
//! page write or its settling; and `worse`, which of two refusals is
//! answered where what was refused first is taken back, and that is refused too (`specs/Faults`).
//!
//! So a fault of the disk is not lost behind a later refusal, nor a failed page write behind a failed read: who asks how a
//! run ended is told of it.
//!
//! Invariant: none, it keeps no state.
//! Below: `mg_model`, whose refusals these are. Above: what a script comes to, as definitions; the calls of a keeper that
//! undo a refused statement; the end of a script.
//! Not here: when a refusal comes, and what it leaves.
#![tactic(auto)]

mod fault;

pub use fault::{tells_failed_write, tells_fault, worse};
