//! The engine as a keeper of records: it stands for a history of events.
//!
//! Owns: `Engine`, the core of an engine with its invariant. It is opened over a disk and closed (`OpensEngine`,
//! `ClosesEngine`). Each other call is a call of the core: `keeping` has them as the impl of a keeper of records, and so
//! what they promise is what `mg_records` asks of one, with the meaning that `mg_engine_meaning_laws` gives (`means_with_room`). Its pages
//! can be written one by one. Statements run on it so (`mg_courses`).
//!
//! Invariant (`IsEngine`): the core is lawful, and each session has one active transaction at most.
//! Below: `mg_core`, the calls over memory and pages; `mg_engine_meaning_laws`, what an engine means; the laws of each kind
//! of call (`mg_engine_meaning_laws`, `mg_engine_change_laws`, `mg_no_damage_laws`).
//! Above: the statements' steps.
#![tactic(auto)]

mod changing;
mod collecting;
mod engine;
mod keeping;
mod keyed;
mod noting;
mod opening;
mod page_writes;
mod sizes;
mod taking;

pub use engine::Engine;
