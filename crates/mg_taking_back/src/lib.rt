//! What a transaction takes back, to its last mark or to a savepoint, over an engine's memory and pages.
//!
//! Owns: the tables that a transaction writes into, kept so that what it has to take back can name them
//! (`note_written`, and with a write of a row `write_noted`); and the loop that takes back key by key, each in a
//! batch of its own (`undo_mark`, `back_to`).
//!
//! A key is taken back so: its table is found by its first page, then the record that speaks for the key. There the
//! transaction's own newest version is taken out where it had not changed the key before, and else replaced by the
//! row or the deletion that was, once it is tested that the row has the key; the entries of the row are laid before, since
//! those that it had may be gone. The loop goes over a copy of what there
//! is to take back. So a page write that fails leaves in memory all as it was: nothing more is undone after it. Any
//! other refusal in the middle rolls the transaction back.
//!
//! Invariant: that of `Core` (`IsCore`), which each call keeps.
//! Below: `mg_core`, whose parts these calls change; `mg_undo`, which says what is given back; `mg_row_writes` and
//! `mg_seek`, for the pages. Above: the engine as a keeper of records, which stands for a history.
//! Not here: histories, and what crashes leave.
#![tactic(auto)]

mod changes;
mod formers;
mod keys;
mod laws;
mod noting;
mod tables;
mod taking;

pub use changes::take_key;
pub use laws::steps_come_to_an_end;
pub use noting::{note_written, write_noted};
pub use tables::{takes_tables_to_mark, takes_tables_to_savepoint};
pub use taking::{back_to, copy_undo, end_wait, give_up, undo_mark};
