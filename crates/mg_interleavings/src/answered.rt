//! What a session is answered at a line.

use mg_base::TxNo;
use mg_script::Reply;

/// What a session is answered at a line, where sessions obey their scripts at once.
#[derive(Debug, Drop)]
pub enum Answered {
    /// As where one script is obeyed.
    Replied(Reply),
    /// It has waited too long for this transaction.
    LockTimeout { on: TxNo },
}
