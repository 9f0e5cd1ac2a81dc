//! The write of a row on the pages: what stands at its key, what is stored, and the batches that store it.
//!
//! Owns: the way of a write. Where no record speaks for the key one is made, in two batches: a place, and then
//! its first version. Where the newest version of the record is the transaction's own, that is replaced. Else
//! the version is pushed over the newest one; a dead transaction's is taken out first, in a batch of its own.
//! Before the batch with the version, and once it is known in which record that stands, come those with the entries of
//! the row: no row is there without its entries. A deletion has none.
//!
//! Calls that find (`obstacle_at`, `row_at`, `before_at`) only read. Each call that changes fills a fresh batch,
//! tests it, and has the cache change it; where it is refused, no content has changed.
//!
//! Invariant: none of its own, it keeps no state.
//! Below: `mg_seek` for what is read by keys, `mg_chain` for versions, `mg_rowcode` for rows, `mg_batches` for
//! a batch that is changed, `mg_entries` for entries. Above: `mg_core`, which has the memory of transactions.
//! Not here: who may write, what is told of an obstacle, and what is kept to be taken back.
#![tactic(auto)]

mod before;
mod changing;
mod entering;
mod finding;
mod laying;
mod storing;

pub use before::{Before, Way, before_at};
pub use changing::{make_first, push_over, replace_newest, take_newest_out, take_place};
pub use entering::{enter_row, keys_may_be_laid};
pub use finding::{ObstacleAt, RowAt, obstacle_at, obstacle_of_record, row_at};
pub use laying::{enter_own, lay};
pub use storing::{may_be_stored, stored_version, table_key, written_key};
