//! The transaction list: the chain of transaction inventory pages, held in memory, with what has
//! become of the transactions of this run.
//!
//! Owns: `TxList`. It has a copy of each transaction inventory page, as the cache shows it, and for
//! each number that was drawn since the list was loaded what has become of it. So a state is told
//! without a page read, and to end a transaction takes no memory.
//!
//! A number that was drawn before and has the bits of active counts as dead: nobody works for it any
//! more. One that was drawn in this run is active until it is ended. A rollback changes no page: its
//! bits stay, and count as dead when the file is opened again.
//!
//! Invariant (`IsTxList`): there is a page of each sequence up to that of the last number drawn, and
//! each is one page long. `load` answers the copies as the cache shows the pages (`HasHead`), and
//! `draw` and `mark_committed` say what becomes of both. Each page lies below the page limit of the
//! cache (`TipsAreBelow`): so a commit may put it without a look at it.
//! Below: `mg_space`, for pages and the taking of one. Above: version chains and the engine.
//! Not here: which transactions a statement sees, and when a commit may set its bits.
#![tactic(auto)]

mod drawing;
mod ending;
mod laws;
mod list;
mod loading;
mod seeking;

pub use laws::loaded_lists_say_what_images_say;
pub use list::{TipPage, TxList};
