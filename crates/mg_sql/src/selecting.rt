//! SELECT.

ghost use Rattle.std.specs.Prelude.{◌≡◌, List, Option, None, true, false, Bool};
ghost use Rattle.mg_expr.specs.Trees.{Tree};
ghost use Rattle.mg_sql.specs.Reading.{IsReady, Keeps};
ghost use Rattle.mg_statements.specs.Plain.{plain_of, trees_in};
ghost use Rattle.mg_sql.specs.Statements.{Rest, finish, totalled as totalled_rule, results as results_rule, selected, direction as direction_rule, order as order_rule, select as select_rule};
ghost use Rattle.mg_sql.specs.Going.{Goes, Derives, Never, begins_in, behind_list};
ghost use Rattle.mg_sql.specs.declared.token.Kind.TheVariants as kinds;
ghost use Rattle.mg_statements.specs.declared.statement.Sorted.{Sorted as AnySorted};

use crate::lists::{expressions, totals};
use crate::parser::Parser;
use crate::parts::{filter, name};
use crate::token::Kind;
use mg_expr::Expr;
use mg_statements::{Sorted, SqlFault, Statement};

/// agg {"," agg} FROM name [WHERE expr]
fn totalled(p: &mut Parser) -> Result<Statement, SqlFault>
    requires ready { IsReady p.old }
    ensures keeps { Keeps p.old p.new }
    ensures told { Goes plain_of totalled_rule finish p.old p.new result }
{
    let aggs = totals(p)?;
    p.expect(Kind::From)?;
    let table = name(p)?;
    let filter = filter(p)?;
    Ok(Statement::Totals {
        table,
        aggs,
        filter,
    })
}

/// "*" | expr {"," expr}
fn results(p: &mut Parser) -> Result<Option<Vec<Expr>>, SqlFault>
    requires ready { IsReady p.old }
    ensures keeps { Keeps p.old p.new }
    ensures told { (then_ : Option (List Tree) → Rest) → ((x : Option (List Tree)) → begins_in behind_list (then_ x) ≡ true)
        → Goes trees_in (results_rule then_) then_ p.old p.new result }
{
    if p.takes(Kind::Star) {
        return Ok(None);
    }
    let values = expressions(p, false)?;
    Ok(Some(values))
}

/// [ASC | DESC]: whether it descends.
fn direction(p: &mut Parser) -> bool
    requires ready { IsReady p.old }
    ensures keeps { Keeps p.old p.new }
    ensures told { (then_ : Bool → Rest) → Never (then_ false) kinds.Asc → Never (then_ false) kinds.Desc
        → Derives (direction_rule then_) (then_ result) p.old p.new }
{
    if p.takes(Kind::Asc) {
        return false;
    }
    p.takes(Kind::Desc)
}

/// [ORDER BY name [ASC | DESC]]
fn order(p: &mut Parser) -> Result<Option<Sorted>, SqlFault>
    requires ready { IsReady p.old }
    ensures keeps { Keeps p.old p.new }
    ensures told { (then_ : Option AnySorted → Rest) → Never (then_ None) kinds.Order → ((x : Option AnySorted) → Never (then_ x) kinds.Asc)
        → ((x : Option AnySorted) → Never (then_ x) kinds.Desc)
        → Goes (λ sorted. sorted) (order_rule then_) then_ p.old p.new result }
{
    if !p.takes(Kind::Order) {
        return Ok(None);
    }
    p.expect(Kind::By)?;
    let column = name(p)?;
    let descending = direction(p);
    Ok(Some(Sorted { column, descending }))
}

/// ("*" | expr {"," expr}) FROM name [WHERE expr] [ORDER BY name [ASC | DESC]]
fn rows(p: &mut Parser) -> Result<Statement, SqlFault>
    requires ready { IsReady p.old }
    ensures keeps { Keeps p.old p.new }
    ensures told { Goes plain_of (results_rule selected) finish p.old p.new result }
{
    let values = results(p)?;
    p.expect(Kind::From)?;
    let table = name(p)?;
    let filter = filter(p)?;
    let sorted = order(p)?;
    Ok(Statement::Select {
        table,
        values,
        filter,
        sorted,
    })
}

/// select = SELECT agg {"," agg} FROM name [WHERE expr]
///        | SELECT ("*" | expr {"," expr}) FROM name [WHERE expr] [ORDER BY name [ASC | DESC]]
pub(crate) fn select(p: &mut Parser) -> Result<Statement, SqlFault>
    requires ready { IsReady p.old }
    ensures keeps { Keeps p.old p.new }
    ensures told { Goes plain_of select_rule finish p.old p.new result }
{
    p.expect(Kind::Select)?;
    if p.is(Kind::Count) {
        return totalled(p);
    }
    if p.is(Kind::Sum) {
        return totalled(p);
    }
    rows(p)
}
