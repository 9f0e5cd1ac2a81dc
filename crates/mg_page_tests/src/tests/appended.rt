//! What a call appends to bytes that are there.

use std::alloc::Global;
use std::test::Fail;

/// The byte that is there before.
const THERE: u8 = 7;

/// Bytes that are there before.
pub fn begun(alloc: Global) -> Result<Vec<u8>, Fail> {
    Ok([THERE].to_vec(alloc)?)
}

/// Tells whether these bytes stand behind the one that was there, and no others.
pub fn is_appended(out: &[u8], wanted: &[u8]) -> bool {
    match out.split_first() {
        Some((first, rest)) => *first == THERE && rest == wanted,
        None => false,
    }
}
