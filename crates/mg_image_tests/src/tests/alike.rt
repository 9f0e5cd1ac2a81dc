//! The one loop over two lists that have to be alike.

/// What can be compared with something that a test tells.
pub trait Alike<T> {
    /// Tells whether this is what is told.
    fn is_like(&self, told: &T) -> bool;
}

/// Tells whether these are what is told, one by one.
pub fn are_like<A: Alike<T>, T>(found: &[A], told: &[T]) -> bool {
    if found.len() != told.len() {
        return false;
    }
    for (one, other) in found.iter().zip(told) {
        if !one.is_like(other) {
            return false;
        }
    }
    true
}
