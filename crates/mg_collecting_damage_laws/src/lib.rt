//! A collection over a sound image finds no page damaged, as laws.
//!
//! Owns: that a record which is collected at a place, by an engine that stands for a history and whose disk tells what it
//! holds, meets no damage, made or refused (`CollectionsMeetNone`), and is refused for want of pages nowhere
//! (`CollectionsMissNone`). Whether it is a record of the table is told, since the table stands; its versions are followed;
//! and behind each step the pages are sound, with the record in its table, so the next one is filled, and is lawful: a
//! version that leads on past another one takes no more room than it had.
//!
//! `specs/Undamaged` has what is said, `proofs/DropLemmas` the batch of a version that is dropped, `proofs/PlaceLemmas` the
//! whole. There is no program here: the function does nothing, and its contract is the law.
//!
//! Invariant: none, it keeps no state.
//! Below: `mg_core_collecting`, for the call; `mg_engine_collecting_laws`, for what stands behind each step; `mg_no_damage_laws`, for
//! what is read of a sound image. Above: the engine, which collects.
#![tactic(auto)]

mod laws;

pub use laws::{collections_meet_no_damage, every_meets_no_damage};
