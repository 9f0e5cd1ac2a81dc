//! What a transaction has to take back: the changes that it made, each with what its own change of
//! that key was before, and the marks and savepoints to which they are taken back.
//!
//! Owns: `Undo`, a list of changes, the newest first, and the points that stand, each with the number
//! of changes that were there when it was set. What is taken back takes with it the points that were
//! set after the point gone back to. A mark ends by it, and a savepoint stays.
//! `Places`, the keys of the changes as an index map in the order of their first changes: of each
//! change it tells which one of the same key was the last before, so that nothing is searched when
//! changes are taken back. A key leaves the map with its first change, and then it is the last.
//!
//! `has_table_key` tells whether a table's row is among the rows of the catalog that are taken back.
//!
//! Invariant: a point stands no higher than the changes that are left, and no lower than an older
//! point. The places are those of the changes.
//! Below: `mg_value`; `mg_sortkey`, whose bytes tell keys apart; `mg_model` for the laws. Above: the engine, which keeps each change before
//! it makes it, and writes back what it is given.
//! Not here: the rows that are there now, and the pages. Taking back all, as a rollback does, needs
//! no list.
#![tactic(auto)]

mod changes;
mod laws;
mod places;
mod points;
mod undo;
mod whole;

pub use changes::{Change, Changes, Was};
pub use laws::{
    a_retracted_change_was_not_kept, taking_back_gives_first_changes, the_list_follows_the_machine,
    what_was_is_given,
};
pub use places::{Place, Places, Push};
pub use points::Standing;
pub use undo::Undo;
pub use whole::has_table_key;
