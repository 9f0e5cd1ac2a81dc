//! The engine's calls over its memory and its pages, as far as they do not depend on a history.
//!
//! Owns: `Core`, what an engine has: the pages with their cache, what has become of each transaction, the
//! bases, the waits, and the active transactions. Each call says exactly what becomes of these parts.
//!
//! Every call of a transaction begins so: once a page write has failed it is refused by `Offline`; else it
//! is refused by `NotActive` where the transaction isn't active. An event ends the wait of its transaction
//! first; to ask for a table and to walk over its records are no events. A refusal changes nothing else, but
//! for what was read and counted.
//!
//! A row is written stage by stage (`write_step`): nobody is in the way by the table's row of the catalog, the
//! row in the view allows it, nobody is in the way by the record, and the version is laid.
//!
//! Invariant (`IsCore`): the cache and the transaction list are lawful and of one page size; the active
//! transactions are those that the list says are active; the bases' next number is the list's; the
//! catalog is the table that the file format says.
//! Below: `mg_space`, for the pages; `mg_row_writes`, for rows on them, and `mg_seek`, which finds tables and
//! rows; `mg_directory` and `mg_noting`, for the records of tables by the bytes of their keys; `mg_txlist`, `mg_snap`, `mg_waits` and `mg_works`, for the memory; `mg_database`, which opens and
//! closes a disk.
//! Above: crates with further calls, which keep the invariant as these do, and for which the parts of `Core` are open;
//! the engine as a keeper of records, which stands for a history.
//! Not here: histories, and what crashes leave.
#![tactic(auto)]

mod beginning;
mod committing;
mod ending;
mod events;
mod noting;
mod obstacles;
mod opening;
mod parts;
mod putting;
mod refusing;
mod scanning;
mod states;
mod tables;
mod writing;

pub use parts::Core;
pub use refusing::{bits_refusal, offline_refusal, refusal_of, write_refusal};
pub use scanning::Place;
pub use states::StatesOf;
