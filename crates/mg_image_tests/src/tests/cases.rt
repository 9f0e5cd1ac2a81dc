//! The one loop over the cases of a test.
//!
//! What a loop costs to prove, with its assertion and its message, is paid once here and not in each
//! test: a test is a table of cases of one type, and that type says what a case wants.

use std::alloc::Global;
use std::process::Abort;
use std::test::Fail;

/// A row of a test: a call, and what it gives.
pub trait Case {
    /// Makes the call, and tells whether it gives that.
    fn holds(&self, alloc: Global) -> Result<bool, Fail>;
}

/// Wants each case to hold.
pub fn hold_each<C: Case>(rt: &impl Abort, alloc: Global, cases: &[C]) -> Result<(), Fail> {
    for place in 0..cases.len() {
        assert!(rt; cases[place].holds(alloc)?, "case {place}");
    }
    Ok(())
}
