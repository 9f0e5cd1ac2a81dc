//! A value that threads share. One call at a time is served, and all replies come from one legal
//! history of calls, from the opening value on. Beside the value lie words that tell which
//! transactions have ended, and which are read and written without a wait.
//!
//! Owns: `Served`, a value that answers calls; `Turn`, such a value behind a lock with tickets, with
//! the words of ends; the seats by which threads step.
//!
//! | word | holds |
//! |---|---|
//! | 0 | the next ticket |
//! | 1 | the ticket that is served |
//! | 2 + n | the end of the n-th transaction from the first: bit 0 committed, 1 dead, 2 in limbo |
//!
//! The one slot holds the value, beside the call and the reply that it gave last, which take no
//! bytes. The words take 512 KiB.
//!
//! Invariant: `Kept` of `specs/Keeping`: there is one legal history, which leaves the value. What
//! each seat has seen begins it, the seat's own calls are those of its name in it, and each end that
//! a word shows stands in it. The history exists in the proof alone.
//! Below: `atomic_table` of the kit, a table of words and slots with a rule that every step keeps;
//! of `mg_base` want of memory. Above: the threads of sessions.
//! Not here: what a call does and who makes it. That each thread gets its turn is promised by nothing:
//! `serve` meets its clauses if it returns.
#![tactic(auto)]

mod ends;
mod lock;
mod rule;
mod served;
mod steps;
#[cfg(test)]
mod tests;
mod turn;

pub use ends::{end_of, post_end};
pub use lock::{Lock, Turn, TurnSeat};
pub use rule::{About, Entry, Gathered, OneHistory, Slot, View};
pub use served::{End, Served};
pub use turn::{ENDS, close, join, new, serve, split};
