//! The keeper of records that statements run over: what every engine promises of its calls, told by
//! the history of events that it stands for.
//!
//! Owns: the trait `Records` and its meaning (`specs/Meaning`): a relation "it stands for this
//! history", the tables and rows that transactions see, what a crash may leave, and counts of
//! faults. `Write` is a change of a row, `Found` a record that a walk has come to; `gives_up` tells
//! after which refusals of an undoing the transaction is rolled back.
//!
//! Each call takes a value that stands for a history, whatever that is, to one that stands for the
//! same history with the call's entries (`specs/Adding`, `Writing`, `TakingBack`). Calls
//! that only read add none (`specs/Reading`). What a crash leaves holds the history
//! (`specs/Crashing`). A session has one active transaction at most (`specs/Sessions`). A refusal from
//! outside the machine comes only by its cause, a fault of the disk is told by one, and once a page
//! write has failed every call is refused (`specs/Keeping`). A call takes no more of the free pages than
//! its number says, and is refused for want of pages only where fewer are free (`specs/Room`). So a keeper can
//! account for the pages that the opening of its history promised (`specs/Needed`). What reads, marks or asks for a
//! commit asks the disk for no page write, and a commit or a rolling back takes no memory (`specs/Asking`): it is
//! answered Ok unless a page write fails (`commits_are_answered`).
//!
//! Not every clause of a call holds of every history: where the machine speaks of an active
//! transaction only, so does the clause. What a value stands for is known to proofs alone.
//!
//! Below: `mg_model`, whose machine says the answers, and `mg_catalog`, whose rows say tables.
//! Above: `mg_plain`, which keeps records in memory, the engine, and the statements' steps.
//! Not here: indexes, and what becomes of garbage.
#![tactic(auto)]

mod found;
mod giving_up;
mod laws;
mod records;
mod write;

pub use found::Found;
pub use giving_up::gives_up;
pub use laws::commits_are_answered;
pub use records::Records;
pub use write::Write;
