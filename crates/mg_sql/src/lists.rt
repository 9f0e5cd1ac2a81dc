//! Lists with commas.

ghost use Rattle.std.specs.Prelude.{◌≡◌, List, ℕ, map, true};
ghost use Rattle.mg_expr.specs.Trees.{Tree, tree_of};
ghost use Rattle.mg_sql.specs.Reading.{IsReady, Keeps};
ghost use Rattle.mg_statements.specs.Plain.{Total, assign_of, total_of};
ghost use Rattle.mg_sql.specs.declared.token.Kind.TheVariants as kinds;
ghost use Rattle.mg_sql.specs.Statements.{Rest, list, item, word, expression as expression_rule, names as names_item, expressions as expressions_item, assignments as assignments_item, definitions as definitions_item, totals as totals_item};
ghost use Rattle.mg_sql.specs.Going.{Goes, begins_in, behind_item, behind_list};
ghost use Rattle.mg_statements.specs.declared.statement.Def.{Def as AnyDef};

use crate::columns::definition;
use crate::parser::Parser;
use crate::parts::{expression, name};
use crate::token::Kind;
use mg_expr::Expr;
use mg_statements::{Agg, Assign, Def, SqlFault};
use mg_value::Name;

/// name {"," name}
pub(crate) fn names(p: &mut Parser) -> Result<Vec<Name>, SqlFault>
    requires ready { IsReady p.old }
    ensures keeps { Keeps p.old p.new }
    ensures told { (then_ : List (List ℕ) → Rest) → ((xs : List (List ℕ)) → begins_in behind_list (then_ xs) ≡ true)
        → Goes (λ names. names.items) (list names_item then_) then_ p.old p.new result }
{
    let mut names = Vec::new(p.alloc);
    let first = name(p)?;
    names.push(first)?;
    while p.takes(Kind::Comma) {
        let next = name(p)?;
        names.push(next)?;
    }
    Ok(names)
}

/// expr {"," expr}
pub(crate) fn expressions(p: &mut Parser, within: bool) -> Result<Vec<Expr>, SqlFault>
    requires ready { IsReady p.old }
    ensures keeps { Keeps p.old p.new }
    ensures told { (then_ : List Tree → Rest) → ((xs : List Tree) → begins_in behind_list (then_ xs) ≡ true)
        → Goes (λ values. map tree_of values.items) (list (expressions_item within) then_) then_ p.old p.new result }
{
    let mut values = Vec::new(p.alloc);
    let first = expression(p, within)?;
    values.push(first)?;
    while p.takes(Kind::Comma) {
        let next = expression(p, within)?;
        values.push(next)?;
    }
    Ok(values)
}

/// name "=" expr
fn assignment(p: &mut Parser) -> Result<Assign, SqlFault>
    requires ready { IsReady p.old }
    ensures keeps { Keeps p.old p.new }
    ensures told { (then_ : List ℕ × Tree → Rest) → ((x : List ℕ × Tree) → begins_in behind_item (then_ x) ≡ true)
        → Goes assign_of (item assignments_item then_) then_ p.old p.new result }
{
    let column = name(p)?;
    p.expect(Kind::Equal)?;
    let value = expression(p, false)?;
    Ok(Assign { column, value })
}

/// name "=" expr {"," name "=" expr}
pub(crate) fn assignments(p: &mut Parser) -> Result<Vec<Assign>, SqlFault>
    requires ready { IsReady p.old }
    ensures keeps { Keeps p.old p.new }
    ensures told { (then_ : List (List ℕ × Tree) → Rest) → ((xs : List (List ℕ × Tree)) → begins_in behind_list (then_ xs) ≡ true)
        → Goes (λ sets. map assign_of sets.items) (list assignments_item then_) then_ p.old p.new result }
{
    let mut sets = Vec::new(p.alloc);
    let first = assignment(p)?;
    sets.push(first)?;
    while p.takes(Kind::Comma) {
        let next = assignment(p)?;
        sets.push(next)?;
    }
    Ok(sets)
}

/// column {"," column}
pub(crate) fn definitions(p: &mut Parser) -> Result<Vec<Def>, SqlFault>
    requires ready { IsReady p.old }
    ensures keeps { Keeps p.old p.new }
    ensures told { (then_ : List AnyDef → Rest) → ((xs : List AnyDef) → begins_in behind_list (then_ xs) ≡ true)
        → Goes (λ columns. columns.items) (list definitions_item then_) then_ p.old p.new result }
{
    let mut columns = Vec::new(p.alloc);
    let first = definition(p)?;
    columns.push(first)?;
    while p.takes(Kind::Comma) {
        let next = definition(p)?;
        columns.push(next)?;
    }
    Ok(columns)
}

/// "(" "*" ")"
fn all_rows(p: &mut Parser) -> Result<(), SqlFault>
    requires ready { IsReady p.old }
    ensures keeps { Keeps p.old p.new }
    ensures told { (then_ : Rest)
        → Goes (λ nothing. nothing) (word kinds.Open (word kinds.Star (word kinds.Close then_))) (λ _. then_) p.old p.new result }
{
    p.expect(Kind::Open)?;
    p.expect(Kind::Star)?;
    p.expect(Kind::Close)
}

/// "(" expr ")"
fn argument(p: &mut Parser) -> Result<Expr, SqlFault>
    requires ready { IsReady p.old }
    ensures keeps { Keeps p.old p.new }
    ensures told { (then_ : Tree → Rest)
        → Goes tree_of (word kinds.Open (expression_rule true (λ e. word kinds.Close (then_ e)))) then_ p.old p.new result }
{
    p.expect(Kind::Open)?;
    let value = expression(p, true)?;
    p.expect(Kind::Close)?;
    Ok(value)
}

/// agg = COUNT "(" "*" ")" | SUM "(" expr ")"
fn total(p: &mut Parser) -> Result<Agg, SqlFault>
    requires ready { IsReady p.old }
    ensures keeps { Keeps p.old p.new }
    ensures told { (then_ : Total → Rest) → ((x : Total) → begins_in behind_item (then_ x) ≡ true)
        → Goes total_of (item totals_item then_) then_ p.old p.new result }
{
    if p.takes(Kind::Count) {
        all_rows(p)?;
        return Ok(Agg::Count);
    }
    p.expect(Kind::Sum)?;
    let value = argument(p)?;
    Ok(Agg::Sum(value))
}

/// agg {"," agg}
pub(crate) fn totals(p: &mut Parser) -> Result<Vec<Agg>, SqlFault>
    requires ready { IsReady p.old }
    ensures keeps { Keeps p.old p.new }
    ensures told { (then_ : List Total → Rest) → ((xs : List Total) → begins_in behind_list (then_ xs) ≡ true)
        → Goes (λ totals. map total_of totals.items) (list totals_item then_) then_ p.old p.new result }
{
    let mut totals = Vec::new(p.alloc);
    let first = total(p)?;
    totals.push(first)?;
    while p.takes(Kind::Comma) {
        let next = total(p)?;
        totals.push(next)?;
    }
    Ok(totals)
}
