//! A keeper of records that records: the events that it has answered, in order, as the printed text of its
//! history.
//!
//! Owns: `Recording`, a keeper of records over any other one. It obeys each call by the one below, and puts the
//! line of each event, with what it was answered, behind its trace. It stands on no store.
//!
//! Meaning (`specs/Via`): everything that the keeper below means, read through it; and where it stands for a
//! history, its trace has this history (`Has` of `mg_trace`): the text is that of all entries since it was
//! made, or, once it had to stop, of a beginning of them. It is made over a keeper that stands for a history
//! without an entry.
//!
//! Invariant (`Knows` of `specs/Knowing`): as long as the trace is whole, it knows the numbers of the active
//! transactions. A taking back that is refused ends its transaction exactly where that was active, and no
//! answer tells so.
//!
//! Where the trace stops: where memory for a line, or for the number of a new transaction, is short; and at a
//! CREATE TABLE that is refused, since no clause says at which of the catalog's rows that was. A call is answered
//! the same then.
//! Below: `mg_records`, `mg_trace`. Above: what sessions on threads will share.
//! Not here: the lines of an opening.
#![tactic(auto)]

mod active;
mod answers;
mod backs;
mod making;
mod recording;
mod tending;

pub use recording::Recording;
