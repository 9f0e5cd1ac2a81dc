//! What a collection means to an engine, as laws: the history is as it was.
//!
//! Owns: that what remains of a record's versions stands for the same history of its key, whose bases are those of the
//! engine's memory (`RemainsStand`), so views, the database and obstacles are told as before; that each step of a
//! collection keeps every overlay, whoever is chosen (`StepKeeps`); and that the collection of a record at a place is
//! nobody's event (`CollectionsAreNobodys`), and tells each fault of the disk (`CollectionsTell`); and which versions an
//! engine keeps of a record (`specs/Versions`), with what is left of it then, by the history (`CollectionsLeave`).
//!
//! The last is made so. `DropReads` has what is read of a record once a version is dropped; `LeftVersions`, that records go
//! on to have the versions of a history where one has fewer that say the same (`SaysTheSame`); `StepSays`, that those of
//! each step do; `StepStays`, that after a step the pages show the history, the cache lasts with it, whoever works walks
//! on, and a crash leaves what it left; `RunStays`, that the steps of one record add up; `CoreStays` and `PlaceStays`, the
//! same of an engine's core, wherever the collection ends. `PlaceNamed` has why the record's table is one that a committed
//! row of the catalog names: a version of a committed transaction stands in it.
//!
//! Of every record of the committed tables: `Committed` has that the tables which are found are those that committed rows
//! name; `EveryStays`, that behind each record the pages show the history and tables stand where they stood (`StandStill`);
//! `EverySo`, that the call is nobody's event; `OneLeft`, what is left of one record, and that all others stay; and
//! `EveryLeaves`, that of each what remains is left.
//!
//! All stands in `specs/`. There is no program here: each function does nothing, and its contract is the law.
//!
//! Invariant: none, it keeps no state.
//! Below: `mg_collecting` and `mg_core_collecting`, for the steps, what remains, and the call; `mg_generation_laws`, for chains
//! with gaps; `mg_collect_tie_laws`, for the batches; `mg_engine_step_laws` and `mg_engine_change_laws`, for what an engine stands for.
//! Above: the engine, which collects.
//! Not here: that no page is taken (`mg_collecting_room_laws`), and that no damage is met over a sound image
//! (`mg_collecting_damage_laws`).
#![tactic(auto)]

mod laws;

pub use laws::{
    collections_are_nobodys, collections_leave, collections_stand, collections_tell_faults,
    every_is_nobodys, every_leaves, every_tells_faults, steps_keep,
};
