//! The events of a history.

use mg_base::TxNo;
use mg_expr::Expr;
use mg_value::{Key, Name, Row};

/// How a transaction runs.
#[derive(Clone, Copy, Debug, PartialEq, Eq)]
pub struct Mode {
    /// It may not write.
    pub read_only: bool,
    /// It waits for a transaction that is in its way, and isn't refused.
    pub wait: bool,
    /// It reads by one snapshot, taken when it begins. Otherwise each statement takes its own
    /// (READ COMMITTED).
    pub snapshot: bool,
}

/// A step of a session, as the history machine sees it. The first part is the transaction whose
/// step it is, or the session that begins one.
#[derive(Debug, Drop)]
pub enum Event {
    /// The session begins a transaction.
    Begin(u8, Mode),
    /// A statement begins: under READ COMMITTED the transaction takes a new base.
    Look(TxNo),
    /// The rows of a table for which the filter is true; all rows where there is none.
    Find(TxNo, Name, Option<Expr>),
    /// The table is to be changed as a whole.
    Claim(TxNo, Name),
    /// A new row.
    Insert(TxNo, Name, Row),
    /// The row with this key becomes this one, which has the same key.
    Change(TxNo, Name, Key, Row),
    /// The row with this key is deleted.
    Erase(TxNo, Name, Key),
    /// A point to which one statement can be taken back.
    Mark(TxNo),
    /// All since the last mark is taken back, and that mark ends.
    UndoMark(TxNo),
    /// A point to which the transaction can be taken back by name.
    Savepoint(TxNo, Name),
    /// All since the last savepoint of the name is taken back; the savepoint stays.
    BackTo(TxNo, Name),
    /// The transaction comes into limbo: only a decision ends it.
    Prepare(TxNo),
    /// The transaction ends, and what it did becomes part of the database.
    Commit(TxNo),
    /// The transaction ends, and nothing of it stays.
    Rollback(TxNo),
    /// A transaction in limbo is committed (`true`), or rolled back.
    Decide(TxNo, bool),
}
