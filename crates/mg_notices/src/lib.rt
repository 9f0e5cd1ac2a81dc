//! Notices from several threads to one, through a queue of at most 256: which places a collector of
//! garbage should visit.
//!
//! Owns: the queue (`Notices`), those who offer notices (`Offerer`), and the one who takes them
//! (`Taker`). A notice that finds the queue full comes back to the one who offered it.
//!
//! Invariant: `Kept` of `specs/Offers`: there is one list of what was offered and by whom. Its
//! notices are those that were taken and then those that the queue holds, and each offerer's part of
//! it is what this offerer has offered, in its order. The list exists in the proof alone.
//! Below: `crossbeam_queue` of the kit, a queue with a rule that every call keeps. Above: the threads
//! of sessions, and the collector.
//! Not here: what a notice says. That a notice is taken some day is promised by nothing.
#![tactic(auto)]

mod queue;
mod rule;
#[cfg(test)]
mod tests;

pub use queue::{MOST_NOTICES, gather, new_offerer, offer, open, settle, take};
pub use rule::{Known, Notices, Offerer, OneList, Taker};
