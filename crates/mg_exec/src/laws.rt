//! Laws.

ghost use Rattle.mg_exec.specs.Statements.{StatementsGoOn, StatementsStayReady};

use mg_records::Records;

/// A statement stands where it would have, and is ready for its next step, where calls for other
/// transactions come between two of its steps.
pub fn statements_go_on_beside_others<R: Records>()
    ensures stand { StatementsGoOn R.meaning }
    ensures ready { StatementsStayReady R.meaning }
{}
