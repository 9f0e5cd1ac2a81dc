//! A transaction takes back what it has changed since a mark or a savepoint, as laws on an engine that stands for a
//! history.
//!
//! Owns:
//!
//! - `undoing`: which changes are taken back to a point, what each step tells, and that the engine stands for the history
//!   with the entry at the end (`BacksGoOn`), or with the refused event and the rollback (`BacksAreGivenUp`).
//! - `given_up`: a transaction that is given up in the middle: its versions count for nobody, and the engine stands for
//!   the history with the rollback.
//! - `keys`: what stays and what goes on between two keys: pages of tables, walks of others, lists, and where it stops.
//! - `takings`: from what the core's calls say of each key to these steps, where the transaction keeps the table of the
//!   change (`CoresTakeKeys`): the table stands on the pages under the change's name, the transaction may write into it,
//!   and the stored row codes the former one. After each step the cache is known again as before (`CoresTakeAll`). The
//!   undo list gives the keys (`UndoListsGiveKeys`). So an engine whose transaction was taken back to a point stands for
//!   the history with the event (`EnginesGoBackTo`).
//! - `outcomes`: from what the core's `undo_mark` and `back_to` (`mg_taking_back`) say to what a keeper of records owes,
//!   where no change since the point is of the catalog, which the list of changes in memory tells (`MarksGive`,
//!   `SavepointsGive`). All is taken back (`specs/UndoneLaws`). Or the event is refused at its beginning, or memory is
//!   wanting for a copy of the list (`ShortLaws`). Or a step is refused after some keys (`StopsAfter`, which `Stopped`
//!   gives for these calls): pages were read, and the transaction is rolled back (`StoppedLaws`); or a page write failed
//!   (`FailedLaws`), after which memory is as it was and crashes leave the history (`Overlays`). Without the savepoint nothing has changed.
//!   `CatalogLaws` goes from the list in memory to the changes of the history. Each session has one active transaction
//!   at most after each of them.
//!
//! All stands in `specs/`. There is no program here: each function does nothing, and its contract is a law.
//!
//! Invariant: none, it keeps no state.
//! Below: `mg_taking_back`, the calls; `mg_engine_step_laws`, one key taken back; `row_writes` of this crate, a row's batches, and
//! what a call leaves of the store; `mg_engine_meaning_laws`; `mg_engine_meaning_laws`, a rollback; `mg_undo`, what a transaction has
//! to take back. Above: the engine.
//! Not here: rows of the catalog that are taken back.

mod given_up;
mod keys;
mod outcomes;
mod takings;
mod undoing;

pub use given_up::{engines_give_up, given_up_is_shown};
pub use keys::{
    its_tables_may_be_written, kept_tables_stand, key_steps_are_taken, keys_keep_lists,
    keys_keep_pages, others_walk_on, stops_go_on,
};
pub use outcomes::{backs_are_known, backs_give};
pub use takings::{
    cores_enter_some, cores_take_all, cores_take_keys, engines_go_back_to, keys_enter_midway,
    undo_lists_give_keys,
};
pub use undoing::{
    backs_follow, engines_take_back, its_records_are_found, keys_are_taken, keys_go_on,
    tables_are_found_back,
};
