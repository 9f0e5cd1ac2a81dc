//! The filter of a statement.

ghost use Rattle.std.specs.Prelude.{◌≡◌, None};
ghost use Rattle.mg_plan.specs.Plans.{filter_in};

use mg_expr::Expr;
use mg_statements::Statement;

/// The filter of a statement; `none`, which is none, where it has none.
pub fn filter_of<'a>(s: &'a Statement, none: &'a Option<Expr>) -> &'a Option<Expr>
    requires { none.now ≡ None }
    ensures { result.now ≡ filter_in s.now }
{
    match s {
        Statement::Update { filter, .. } => filter,
        Statement::Delete { filter, .. } => filter,
        Statement::Totals { filter, .. } => filter,
        Statement::Select { filter, .. } => filter,
        _ => none,
    }
}
