//! A record that a transaction reads is collected by the engine.
//!
//! Owns: the call over a core (`collect_place`): where a record of the table stands at the place, and it has something
//! settled, what nobody needs of its versions goes (`specs/Places`). A record is settled where its newest version is of a
//! committed transaction, or another version stands behind it. One that is not is left as it is: its only version is of a
//! transaction that works, is in limbo or is dead. Of the last there is nothing to tell whether the table itself was ever
//! committed, and a table that was not is taken away as a whole.
//!
//! And the call that does so with every record of the tables that committed rows of the catalog name (`collect_every`,
//! `specs/Every`). Those tables are the ones that the system's transaction sees named where nobody else is live.
//!
//! Invariant: that of a core (`IsCore` of `mg_core`) is kept.
//! Below: `mg_collecting`, for what goes of a record; `mg_core`, for the core; `mg_seek` and `mg_catalog`, for the tables
//! and their records. Above: the engine, which
//! collects records.
//! Not here: histories, and what crashes leave (`mg_engine_collecting_laws`).
#![tactic(auto)]

mod collecting;
mod committed;
mod every;
mod settled;

pub use collecting::collect_place;
pub use every::collect_every;
