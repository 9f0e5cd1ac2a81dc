//! The parts of a bound statement.

ghost use Rattle.std.specs.Prelude.{◌≡◌};
ghost use Rattle.mg_statements.specs.Plain.{plain_of};
ghost use Rattle.mg_exec.specs.Phases.{is_insert as is_insert_test, is_select as is_select_test, is_writing as is_writing_test};

use mg_statements::Statement;

/// Tells whether a statement is an INSERT.
pub fn is_insert(s: &Statement) -> bool
    ensures { result ≡ is_insert_test (plain_of s.now) }
{
    matches!(s, Statement::Insert { .. })
}

/// Tells whether a statement is a SELECT, of expressions or of totals.
pub fn is_select(s: &Statement) -> bool
    ensures { result ≡ is_select_test (plain_of s.now) }
{
    matches!(s, Statement::Totals { .. } | Statement::Select { .. })
}

/// Tells whether a statement writes rows of its table, or makes one.
pub fn is_writing(s: &Statement) -> bool
    ensures { result ≡ is_writing_test (plain_of s.now) }
{
    matches!(
        s,
        Statement::Table { .. }
            | Statement::Insert { .. }
            | Statement::Update { .. }
            | Statement::Delete { .. }
    )
}
