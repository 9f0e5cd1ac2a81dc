//! What a transaction is told of another one that is in its way.

/// What a transaction is told of another one that is in its way.
///
/// Source: Firebird, lock conflicts and deadlocks of `SET TRANSACTION WAIT` and `NO WAIT`.
#[derive(Clone, Copy, Debug, PartialEq, Eq)]
pub enum Verdict {
    /// The other one is committed: what it changed is not to be written over.
    Update,
    /// The other one is active, and this one doesn't wait.
    Lock,
    /// The other one is active, and this one waits for its end.
    Wait,
    /// The other one is active, and to wait for it would never end.
    Deadlock,
    /// The other one is in limbo: only a decision from outside ends it.
    Limbo,
}
