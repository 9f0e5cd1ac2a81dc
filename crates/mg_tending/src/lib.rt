//! Keepers of records that do more than `Records` asks: changed pages are written one by one, beside the commits that
//! write them, a row is found by its key, and what nobody needs of a record goes.
//!
//! Owns: the trait `PageWrites`: one changed page is written, if there is one (`specs/Tending`). The trait `Keyed`: the
//! row with a key that a transaction sees (`specs/Keyed`). The trait `Collects`: the record at a place is collected, or
//! that of a key; what is left of it is said by the history that the keeper stands for (`specs/Collecting`).
//!
//! Invariant: none, it keeps no state.
//! Below: `mg_records`. Above: the keepers that have them, and the lines of scripts that ask for them.
//! Not here: which page is written, where a row is looked for, and how a record's versions are kept.
#![tactic(auto)]

mod collecting;
mod keyed;
mod tending;

pub use collecting::Collects;
pub use keyed::Keyed;
pub use tending::PageWrites;
