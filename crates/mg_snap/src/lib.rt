//! The transactions that have not ended, with the base of each: which transactions had been drawn
//! and had ended when the base was taken. A statement sees the changes of exactly those.
//!
//! Owns: `Live`, on plain numbers. It knows nothing of states on pages: a number that was drawn and
//! was not entered, or was entered and has left, has ended.
//!
//! A transaction in limbo has not ended: it enters where the database is opened, loses its base, and
//! leaves once it is decided. Under READ COMMITTED each statement takes a new base (`rebase`). Each base
//! has room for all transactions that have not ended, made where one enters, so a new base takes no
//! memory.
//!
//! Invariant: each transaction that has not ended was drawn; each base has room for all of them.
//! Below: `mg_base`. Above: version chains, the sweep and the engine.
//! Not here: whether a transaction that ended was committed, and the markers.
#![tactic(auto)]

mod base;
mod laws;
mod live;

pub use laws::{a_base_sees_what_had_ended, a_new_base_sees_what_has_ended, others_change_nothing};
pub use live::Live;
