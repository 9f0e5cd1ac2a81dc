//! The versions of one key of a table, as a history says them: for each the transaction that wrote
//! it and the row that it gives, none where it is a deletion. The newest comes first, and none is
//! of a dead transaction.
//!
//! Owns: the definitions of these lists, what each entry of a history makes of them, and the laws
//! that they tell what a transaction sees of the key, who is its obstacle, what the database has
//! and what outlasts a crash. There is no program here: each function does nothing, and its
//! contract is a law.
//!
//! The definitions stand in `specs/`: `Generations` (lists of versions, and which are those of a
//! history), `After` (what each entry makes of them), `Kept` (which of them are kept once garbage was
//! collected), `Tables` (tables that a history leaves).
//! `Laws` says what follows, and the other files `..Laws` prove it, for other crates too.
//!
//! Invariant: all but the newest of the versions are committed, and each was written by one who had
//! seen the older ones; the newest is what the own changes of its transaction say as long as that
//! one has not ended.
//! Below: `mg_model`, the history machine. Above: whoever keeps versions, and answers by them.
//! Not here: pages, and chains of records on them.
#![tactic(auto)]

mod laws;
mod scenarios;

pub use laws::{
    chains_tell, garbage_may_go, kept_versions_go_on, obstacles_are_writers, tables_are_left,
    versions_begin, versions_go_on, versions_show, versions_taken_back,
};
pub use scenarios::{a_transaction_takes_back, two_transactions_write};
