//! What the plain machine keeps of a transaction.

use mg_base::{TxNo, TxState};
use mg_model::Mode;

/// What the plain machine keeps of a transaction.
#[derive(Clone, Copy, Debug)]
pub struct Known {
    pub state: TxState,
    pub mode: Mode,
    /// How many changes the database had when the transaction took its base.
    pub base: usize,
    /// How many transactions had been committed since the opening when it took its base.
    pub saw: usize,
    /// Its place among these, counted from 1, once it is committed itself; 0 for the opening's.
    pub place: usize,
    /// The transaction that its last event waits on.
    pub waits: Option<TxNo>,
}

/// The session that has begun a transaction, or was to begin it.
#[derive(Clone, Copy, Debug)]
pub struct BegunBy {
    pub number: usize,
    pub session: u8,
}
