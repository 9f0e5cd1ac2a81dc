//! How many free pages a collection takes, as laws: none.
//!
//! Owns: that no step of a collection takes a free page, made or refused, and that a collection is refused for want of pages
//! nowhere (`CollectionsTakeNone`). A version is dropped in place, and another one taken out: cells are put over and freed
//! on data pages that stand.
//!
//! All stands in `specs/`. There is no program here: the function does nothing, and its contract is the law.
//!
//! Invariant: none, it keeps no state.
//! Below: `mg_core_collecting`, for the call; `mg_free_page_laws`, for what a batch takes. Above: the engine, which
//! collects.
#![tactic(auto)]

mod laws;

pub use laws::{collections_take_none, every_takes_none};
