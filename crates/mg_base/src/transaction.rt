//! What becomes of transactions, and the numbers that bound the ones of interest.

use crate::TxNo;
use std::fmt;

/// What has become of a transaction, in the order of its two bits on the transaction inventory page
/// (Firebird ODS, transaction inventory page).
#[derive(Clone, Copy, Debug, PartialEq, Eq)]
pub enum TxState {
    /// It runs, or it ran when the machine stopped: then it counts as dead.
    Active,
    /// It is prepared: only a decision from outside ends it.
    Limbo,
    /// It is rolled back. Its record versions are garbage.
    Dead,
    /// Its record versions stay.
    Committed,
}

impl fmt::Display for TxState {
    fn fmt<W: fmt::Write>(&self, f: &mut fmt::Formatter<W>) -> fmt::Result {
        f.write_str(match self {
            TxState::Active => "ACTIVE",
            TxState::Limbo => "LIMBO",
            TxState::Dead => "DEAD",
            TxState::Committed => "COMMITTED",
        })
    }
}

/// The markers of the header page: oldest interesting, oldest active, oldest snapshot and next
/// transaction.
#[derive(Clone, Copy, Debug, PartialEq, Eq)]
pub struct Markers {
    /// The oldest interesting transaction.
    pub oit: TxNo,
    /// The oldest active transaction.
    pub oat: TxNo,
    /// The oldest snapshot transaction.
    pub ost: TxNo,
    /// The next transaction: the number that is drawn next.
    pub next: TxNo,
}
