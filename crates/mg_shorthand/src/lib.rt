//! The lines `@put` and `@get`, over any keeper of records: what their transaction does once it has begun.
//!
//! Owns: `Serves`, a keeper that puts rows, and that each keeper is one whose pages can be written one by one, that
//! collects records and finds a row by its key; `get`. Both visit the record of their key: what nobody needs of it goes.
//! Each ends its transaction: it commits where all was done, and else it is rolled back, but
//! behind a refusal by which the run stops. What comes of it is `Puts` and `Gets` of `mg_transcript`, for each history
//! that the keeper stood for.
//!
//! The definitions stand in `specs/`: `Going` (what calls for an active transaction come to), `Keys` (the row with a
//! key, the write of a put, and the reading of a get), `Visiting` (the record of a key is collected).
//!
//! Invariant: none, it keeps no state.
//! Below: `mg_tending`, by which both find the row of their key, and `mg_courses`, by which the SELECT of a `@get` is
//! tested, and runs where somebody has made another KV. Above: `mg_sessions`, which begins the transaction.
//! Not here: which session the transaction is of, and what is printed.
#![tactic(auto)]

mod getting;
mod giving_up;
mod putting;
mod reading;
mod serving;
mod settling;
mod visiting;

pub use getting::get;
pub use serving::Serves;
