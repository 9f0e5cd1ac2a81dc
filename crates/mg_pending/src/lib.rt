//! What a script remembers between its lines: the live transaction of each session, and the statements
//! that have begun and go on later.
//!
//! Owns: `Transactions`, the live transaction of each session (A to P, and that of the shorthand
//! lines); `Pending`, a statement that is held, or waits for a transaction; `Sessions`, both together.
//! It keeps what a statement came to (`Sessions::keep`): one that goes on later comes behind the
//! others, so those that wait stand in the order in which they came to wait.
//!
//! The definitions stand in `specs/`: `Transactions` and `Statements` (what the lists say), `Standing`
//! (when they agree with a history: `StandAt`; and with a keeper of records: `AreReady`).
//! `TransactionLaws`, `AgreeLaws` and `StandingLaws` have what a step of one session leaves of all others.
//!
//! Invariant: there is a place for each session. What is agreed with a keeper is no invariant, since
//! the keeper stands beside.
//! Below: `mg_courses`, which runs a statement. Above: `mg_sessions`, which obeys lines.
//! Not here: any call of a keeper, and what is printed.
#![tactic(auto)]

mod pending;
mod sessions;
mod transactions;

pub use pending::{Pending, first_released, held_by, is_busy, is_last_released};
pub use sessions::Sessions;
pub use transactions::{PLACES, SHORTHAND, Transaction, Transactions};
