//! Run-length coding: packs bytes into runs, and unpacks exactly the texts that packing writes.
//! Each byte string has one packed text, so packed rows are equal exactly where the rows are.
//!
//! Owns: the coding of a row's bytes. A packed text is a list of runs:
//!
//! | control byte | behind it | stands for |
//! |---|---|---|
//! | 1 to 127 | that many bytes | these bytes |
//! | 128 to 253 | 1 byte | that byte so many times: 256 less the control byte, so 128 to 3 |
//! | 0, 254, 255 | | nothing: refused |
//!
//! The writer goes from the left. Where three equal bytes begin it writes a repeat of as many as
//! follow, at most 128; else it writes a literal up to the next such place, at most 127 bytes.
//!
//! Invariant: a text is accepted exactly where it is what the writer writes (`IsAccepted`).
//! Below: `mg_base`, for `Memory`. Above: `mg_rowcode`, which packs the bytes of a row.
//! Not here: what the bytes mean, and how long a packed row may be.
#![tactic(auto)]

mod fault;
mod laws;
mod packing;
mod reading;
mod run;
mod unpacking;

pub use fault::RunFault;
pub use laws::{one_packed_text, one_plain_text, one_verdict};
pub use packing::pack;
pub use run::{LEAST_REPEAT, MOST_LITERAL, MOST_REPEAT};
pub use unpacking::unpack;
