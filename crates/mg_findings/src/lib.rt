//! What a validation tells of an image: its findings, their order, and the list that they are.
//!
//! Owns: what a finding is (`Finding`, `Rule`), the order of findings, and what it is to be the
//! list of all findings of a kind (`IsListOf`): it ascends, and has each of them and no other. So
//! such a list is determined by what is found, whoever looked for it and in which order.
//!
//! Invariant: none, it keeps no state.
//! Below: `mg_base`, for the fields of pages that a damage names. Above: the crates that test an
//! image rung by rung.
//! Not here: when an image has a finding.
#![tactic(auto)]

mod finding;
mod laws;
mod ordering;

pub use finding::{Finding, Rule};
pub use laws::one_list;
pub use ordering::{in_order, note};
