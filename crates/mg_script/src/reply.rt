//! What a line is answered.

use mg_base::TxNo;
use mg_rows::{Outcome, StatementFault};

/// What a line is answered.
#[derive(Debug, Drop)]
pub enum Reply {
    /// A statement, or another line, has taken effect.
    Ok(Outcome),
    /// A transaction of this number has begun, or was prepared, or has put a row.
    Tx(TxNo),
    /// It was refused.
    No(StatementFault),
    /// A statement is begun, or has taken its steps, and goes on later.
    Held,
    /// It is no line.
    Bad,
}
