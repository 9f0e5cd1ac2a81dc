//! Tests of the disk behind a writer thread: what no clause says, that calls succeed, that each page
//! write reaches the device in its order, and that the writer runs beside its caller.
//!
//! Owns: nothing but the tests and a device that waits. They stand apart from `mg_behind`, so that it
//! is proved once, and not again with its tests. Each ends by itself, and joins its thread.
//!
//! Invariant: none, it keeps no state.
//! Below: `mg_base`, `mg_behind`. Above: nothing.
//! Not here: an engine over such a disk.
#![tactic(auto)]

#[cfg(test)]
mod tests;
mod waiting;

pub use waiting::Waiting;
