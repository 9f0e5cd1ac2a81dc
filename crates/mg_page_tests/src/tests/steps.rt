//! The one loop over the steps of a test: calls that are made on one thing, one after another.

use std::process::Abort;

/// A call on something, and what it does.
pub trait Step<S> {
    /// Makes the call, and tells whether it does that.
    fn goes(&self, on: &mut S) -> bool;
}

/// Wants each step to go.
pub fn go_each<S, T: Step<S>>(rt: &impl Abort, on: &mut S, steps: &[T]) {
    for place in 0..steps.len() {
        assert!(rt; steps[place].goes(on), "step {place}");
    }
}
