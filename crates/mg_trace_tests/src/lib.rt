//! Tests of the printed text of a history: lines written by hand from the rules, one for each kind of event, and the
//! text of a run of the plain machine behind a keeper that records; and the answer LOCK TIMEOUT.
//!
//! Owns: nothing but the tests. A trace that gives up for want of memory meets every clause; that it is whole where
//! there is memory is seen here alone.
//!
//! Invariant: none, it keeps no state.
//! Below: `mg_recording`, `mg_plain`, `mg_interleavings`, and what events are made of. Above: nothing.
//! Not here: which answer an event gets. Those are the plain machine's tests.
#![tactic(auto)]

#[cfg(test)]
mod tests;
