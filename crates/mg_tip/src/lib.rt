//! The transaction inventory page: what has become of each of its transactions, in two bits.
//! It reads and sets states on a page that the caller lends, and takes no memory.
//!
//! Owns: a page of kind 3, a map from a place on the page to a state.
//!
//! | at | width | field |
//! |---|---|---|
//! | 0 | 16 | common part |
//! | 16 | 4 | page number of the transaction inventory page before this one, 0 for none |
//! | 20 | P - 20 | states, four to a byte, lowest bits first |
//!
//! A page has 4 * (P - 20) places: 4,016 at P = 1024, 16,304 at P = 4096.
//!
//! Invariant: every two bits are one of the four states, so no byte from 20 on is refused.
//! Below: `mg_base`, for fields. Above: `mg_txlist`, which keeps the chain of these pages.
//! Not here: which transaction stands at which place, and when a page may be written.
#![tactic(auto)]

mod page;
mod states;

pub use page::{PREV_AT, STATES_AT, TIP_KIND, check_tip, new_tip, prev_of};
pub use states::{bits_of, set_state, state_at};
