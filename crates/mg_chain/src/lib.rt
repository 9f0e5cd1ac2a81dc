//! The versions of records: how one leads to the next, and how they are written.
//!
//! Owns: how a chain of versions is linked and changed. The cell of a record's primary slot names the
//! newest version; each version names the one before it, by its place and by the transaction that wrote
//! it.
//!
//! Each link is followed only to a version of the transaction that it names.
//!
//! The calls that write (`spot`, `first`, `push`, `replace_own`, `back_out`, `drop_behind`) fill a batch that the caller
//! lends, and leave the cache as it was. Each contract is a row of steps, one cell after another, with
//! the pages as they are seen between them, and the exact list of orders of page writes (`Orders`). After
//! a fault the batch may have a part of the change, and the caller drops it.
//!
//! Invariant: none of its own, it keeps no state.
//! Below: `mg_heap` for cells by their places, `mg_version` for what a cell spells, `mg_snap` for
//! what a base sees, and `mg_generation_laws` for the laws. Above: the engine and the collection of garbage.
//! Not here: the walk along a chain (`mg_seek`); what becomes of a transaction, which a caller tells by
//! `States`; when a batch is changed; and which versions behind others may go.
#![tactic(auto)]

mod cells;
mod damage;
mod dropping;
mod heads;
mod laws;
mod making;
mod ordering;
mod pushing;
mod replacing;
mod spelling;
mod states;
mod taking_out;
mod turning;

pub use cells::{newest_link, version_at};
pub use damage::length_wanted;
pub use dropping::drop_behind;
pub use laws::{
    a_transaction_sees_its_view, bases_follow_the_machine, cells_are_changed,
    newest_versions_are_changed, versions_are_added,
};
pub use making::{first, spot};
pub use pushing::push;
pub use replacing::replace_own;
pub use states::States;
pub use taking_out::back_out;
