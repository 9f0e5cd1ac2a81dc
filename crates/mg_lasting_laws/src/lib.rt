//! What the cache of an engine is to be, so that whatever a crash leaves holds the history.
//!
//! Owns: the definition (`Lasts`): the overlay of every closed set of dirty pages is as it has to be,
//! whichever active transactions count as in limbo whose pages it has; the bits of each say what becomes of
//! its transactions where nobody is chosen; the pool's next number is the history's. A transaction that has
//! not asked for its commit needs all dirty pages, one that has those that were marked for it. Between the
//! change of a commit's bits and their write stands `LastsMidway`. Over a pool and its disk stands
//! `LastsOn`, and once a page write has failed `LeftOn`, which speaks of the disk alone.
//!
//! What a call leaves is told of every image that a crash since its start might have left
//! (`LeavesHistory`): blank or sound, it holds what outlasts a crash after some durable event, not before
//! those that were acknowledged, of the history with the durable event taken as effective that is under way,
//! or whose call ended in a failed page write (`asked`).
//!
//! The definitions stand in `specs/Crashes` and `specs/Lasting`; `specs/Laws`, `CommitStatements` and
//! `CrashStatements` have what counts, `Entries` what entries bring and leave, and the files `..Laws` and
//! `Bits` prove it. There is no program here: each function does nothing, and its contract is a law.
//!
//! Invariant: none, it keeps no state.
//! Below: `mg_image_overlay_laws` and the crates of batches, what an overlay has to be; `mg_image_overlay_laws`, the
//! bits of a commit; `mg_pool_overlay_laws`, the cache. Above: the engine, whose invariant over a told disk it
//! is.
//! Not here: what is in memory, and the versions of each key.
#![tactic(auto)]

mod laws;

pub use laws::{
    calls_leave, commits_last, crashes_hold, entries_last, pages_last, pools_last, starts_last,
};
