//! What it means for an engine that a transaction is taken back to a point with tables that it has made, as laws.
//!
//! Owns:
//!
//! - `lists`: what the list in memory gives to take back falls into the changes of other tables and the rows of the
//!   catalog (`GivenApart`); once the former are taken back, what is left are rows that the transaction had made
//!   (`RowsAreLeft`). They are those of whole tables, since none is made twice, and those of a table are made together
//!   (`KeysGoWhole`).
//! - `ways`: memory follows the entry, where the tables have gone that the transaction saw (`TablesFollow`); the walks of
//!   all others go on over the batch (`TablesWalksGoOn`); and what the core takes out of the catalog is a step of the laws
//!   of `mg_engine_step_laws` (`CoresTakeRows`).
//! - `engines`: an engine whose transaction was taken back to a point over tables that it had made stands for the history
//!   with the event, every crash since the call began leaves what it has to (`EnginesGoOver`), and the walks of all others
//!   go on (`OthersWalkOver`). Nothing is asked of the changes since the point: where none is of the catalog, no row goes.
//! - `outcomes`: from what the core's calls say to what a keeper of records owes (`MarksGiveOver`, `SavepointsGiveOver`): all
//!   is taken back (`UndoneOver`), or the call is refused (`RefusalsGiveOver`). Where it stops at a change of another table,
//!   or at the rows of the catalog, some keys were taken back before (`OverStopped`): from there on the laws of
//!   `takings` on refusals hold.
//!
//! All stands in `specs/`. There is no program here: each function does nothing, and its contract is a law.
//!
//! Invariant: none, it keeps no state.
//! Below: `mg_table_takings`, whose calls these laws are of; `mg_engine_step_laws`, for the rows of the catalog;
//! `takings` of this crate, for the keys of other tables. Above: the engine as a keeper of records.

mod engines;
mod lists;
mod outcomes;
mod ways;

pub use engines::engines_go_over;
pub use lists::rows_are_given;
pub use outcomes::{backs_give_over, refusals_give_over};
pub use ways::{cores_take_rows, tables_follow, tables_walks_go_on};
