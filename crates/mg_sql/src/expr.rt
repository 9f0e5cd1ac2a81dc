//! Expressions, a function for each rule of the grammar.

ghost use Rattle.std.specs.Prelude.{◌≡◌, ◌<◌, ℕ, pos, map, IfOk, Some};
ghost use Rattle.mg_expr.specs.Trees.{Tree, tree_of, part_tree, Or as OrTree, And as AndTree, Compare as CompareTree, Sum as SumTree, Product as ProductTree, Integer as IntegerTree};
ghost use Rattle.mg_sql.specs.Grammar.{Factor, Term, Sums, Test, Neg, Conj, Expr as ExprRule, one_or, one_or_parts, sign_of, adds as adds_by, multiplies as multiplies_by};
ghost use Rattle.mg_sql.specs.Ends.{binds as binds_by};
ghost use Rattle.mg_sql.specs.Reading.{IsReady, Keeps, Reads, Told, EndsTest};
ghost use Rattle.mg_sql.specs.Parting.{IsBare, asked_tree};
ghost use Rattle.mg_expr.specs.declared.expr.Sign.{Sign as AnySign};
ghost use Rattle.mg_sql.specs.declared.parser.Parser.{Parser as AnyParser};
ghost use Rattle.mg_sql.specs.declared.token.Kind.TheVariants as kinds;

use crate::parser::Parser;
use crate::token::Kind;
use mg_base::Memory;
use mg_expr::{Expr, Part, Sign};
use mg_statements::SqlFault;
use std::alloc::Global;

/// Whether a sign of a sum subtracts.
fn adds(kind: Kind) -> Option<bool>
    ensures { result ≡ adds_by kind }
{
    match kind {
        Kind::Plus => Some(false),
        Kind::Minus => Some(true),
        _ => None,
    }
}

/// Whether a sign of a product divides.
fn multiplies(kind: Kind) -> Option<bool>
    ensures { result ≡ multiplies_by kind }
{
    match kind {
        Kind::Star => Some(false),
        Kind::Slash => Some(true),
        _ => None,
    }
}

/// How a sign compares.
fn sign(kind: Kind) -> Option<Sign>
    ensures { result ≡ sign_of kind }
{
    match kind {
        Kind::Equal => Some(Sign::Equal),
        Kind::Unequal => Some(Sign::Unequal),
        Kind::Less => Some(Sign::Less),
        Kind::AtMost => Some(Sign::AtMost),
        Kind::Greater => Some(Sign::Greater),
        Kind::AtLeast => Some(Sign::AtLeast),
        _ => None,
    }
}

/// How tightly a token binds that stands behind a part of an expression, 0 where none goes on with it.
fn binds(kind: Kind) -> u8
    ensures { result ≡ binds_by kind }
{
    match kind {
        Kind::Or => 1,
        Kind::And => 2,
        Kind::Is
        | Kind::Equal
        | Kind::Unequal
        | Kind::Less
        | Kind::AtMost
        | Kind::Greater
        | Kind::AtLeast => 3,
        Kind::Plus | Kind::Minus => 4,
        Kind::Star | Kind::Slash => 5,
        _ => 0,
    }
}

/// The expression of a number.
fn integer(number: i64) -> Expr
    ensures { tree_of result ≡ IntegerTree number }
{
    Expr::Integer(number)
}

/// Refuses a token that would go on with a test: a test is no part of another one.
fn ends_test(p: &Parser) -> Result<(), SqlFault>
    requires ready { IsReady p.now }
    ensures { EndsTest p.now result }
{
    if binds(p.kind) >= 3 {
        return Err(p.syntax());
    }
    Ok(())
}

/// A product, or its first part where it is alone.
fn product(alloc: Global, first: Expr, parts: Vec<Part>) -> Result<Expr, Memory>
    ensures { IfOk result (λ e. tree_of e ≡ one_or_parts ProductTree (tree_of first) (map part_tree parts.items)) }
{
    if parts.is_empty() {
        return Ok(first);
    }
    Ok(Expr::Product(Box::new(alloc, first)?, parts))
}

/// A sum, or its first part where it is alone.
fn summed(alloc: Global, first: Expr, parts: Vec<Part>) -> Result<Expr, Memory>
    ensures { IfOk result (λ e. tree_of e ≡ one_or_parts SumTree (tree_of first) (map part_tree parts.items)) }
{
    if parts.is_empty() {
        return Ok(first);
    }
    Ok(Expr::Sum(Box::new(alloc, first)?, parts))
}

/// integer | text | NULL | name
fn leaf(p: &mut Parser, levels: u32) -> Result<Expr, SqlFault>
    requires ready { IsReady p.old }
    requires bare { IsBare p.old.kind }
    ensures keeps { Keeps p.old p.new }
    ensures told { Told tree_of Factor 6 levels p.old p.new result }
{
    match p.kind {
        Kind::Integer => Ok(integer(p.integer()?)),
        Kind::Text => Ok(Expr::Text(p.text()?)),
        Kind::Name => Ok(Expr::Name(p.name()?)),
        Kind::Null => {
            p.advance();
            Ok(Expr::Null)
        }
        _ => Err(p.syntax()),
    }
}

/// A comparison.
fn compared(alloc: Global, first: Expr, sign: Sign, second: Expr) -> Result<Expr, Memory>
    ensures { IfOk result (λ e. tree_of e ≡ CompareTree (tree_of first) sign (tree_of second)) }
{
    let first = Box::new(alloc, first)?;
    Ok(Expr::Compare(first, sign, Box::new(alloc, second)?))
}

/// The test whether an expression is NULL, or is not.
fn asked(alloc: Global, first: Expr, not: bool) -> Result<Expr, Memory>
    ensures { IfOk result (λ e. tree_of e ≡ asked_tree (tree_of first) not) }
{
    let first = Box::new(alloc, first)?;
    if not {
        return Ok(Expr::IsNotNull(first));
    }
    Ok(Expr::IsNull(first))
}

/// Reads IS [NOT] NULL, behind which a test ends: whether NOT stands there.
fn asks(p: &mut Parser) -> Result<bool, SqlFault>
    requires ready { IsReady p.old }
    requires is { p.old.kind ≡ kinds.Is }
    ensures keeps { Keeps p.old p.new }
    ensures told { (start : AnyParser) (levels : ℕ) (first : Tree) → Keeps start p.old
        → Reads Sums levels first start.text.now start.at p.old.at
        → Told (asked_tree first) Test 3 levels start p.new result }
{
    p.advance();
    let not = p.takes(Kind::Not);
    p.expect(Kind::Null)?;
    ends_test(p)?;
    Ok(not)
}

/// factor = "-" factor | "(" expr ")" | integer | text | NULL | name
#[cycle(expression)]
fn factor(p: &mut Parser, levels: u32) -> Result<Expr, SqlFault>
    requires ready { IsReady p.old }
    ensures keeps { Keeps p.old p.new }
    ensures told { Told tree_of Factor 6 levels p.old p.new result }
{
    match p.kind {
        Kind::Minus => negated(p, levels),
        Kind::Open => enclosed(p, levels),
        _ => leaf(p, levels),
    }
}

/// "-" factor
#[cycle(expression)]
fn negated(p: &mut Parser, levels: u32) -> Result<Expr, SqlFault>
    requires ready { IsReady p.old }
    requires minus { p.old.kind ≡ kinds.Minus }
    ensures keeps { Keeps p.old p.new }
    ensures told { Told tree_of Factor 6 levels p.old p.new result }
{
    if levels == 0 {
        return Err(p.too_deep());
    }
    p.advance();
    let value = factor(p, levels - 1)?;
    Ok(Expr::Minus(Box::new(p.alloc, value)?))
}

/// "(" expr ")"
#[cycle(expression)]
fn enclosed(p: &mut Parser, levels: u32) -> Result<Expr, SqlFault>
    requires ready { IsReady p.old }
    requires open { p.old.kind ≡ kinds.Open }
    ensures keeps { Keeps p.old p.new }
    ensures told { Told tree_of Factor 6 levels p.old p.new result }
{
    if levels == 0 {
        return Err(p.too_deep());
    }
    p.advance();
    let inner = expr(p, levels - 1)?;
    p.expect(Kind::Close)?;
    Ok(inner)
}

/// term = factor {("*" | "/") factor}
#[cycle(expression)]
fn term(p: &mut Parser, levels: u32) -> Result<Expr, SqlFault>
    requires ready { IsReady p.old }
    ensures keeps { Keeps p.old p.new }
    ensures told { Told tree_of Term 5 levels p.old p.new result }
{
    let first = factor(p, levels)?;
    let mut parts = Vec::new(p.alloc);
    while let Some(inverse) = multiplies(p.kind) {
        p.advance();
        let value = factor(p, levels)?;
        parts.push(Part { inverse, value })?;
    }
    Ok(product(p.alloc, first, parts)?)
}

/// sum = term {("+" | "-") term}
#[cycle(expression)]
fn sum(p: &mut Parser, levels: u32) -> Result<Expr, SqlFault>
    requires ready { IsReady p.old }
    ensures keeps { Keeps p.old p.new }
    ensures told { Told tree_of Sums 4 levels p.old p.new result }
{
    let first = term(p, levels)?;
    let mut parts = Vec::new(p.alloc);
    while let Some(inverse) = adds(p.kind) {
        p.advance();
        let value = term(p, levels)?;
        parts.push(Part { inverse, value })?;
    }
    Ok(summed(p.alloc, first, parts)?)
}

/// Reads a sign of a comparison, and the sum behind it, with which a test ends.
#[cycle(expression)]
fn second_sum(p: &mut Parser, levels: u32) -> Result<Expr, SqlFault>
    requires ready { IsReady p.old }
    ensures keeps { Keeps p.old p.new }
    ensures told { (start : AnyParser) (first : Tree) (sign : AnySign) → sign_of p.old.kind ≡ Some sign
        → Keeps start p.old → Reads Sums levels first start.text.now start.at p.old.at
        → Told (λ e. CompareTree first sign (tree_of e)) Test 3 levels start p.new result }
{
    p.advance();
    let second = sum(p, levels)?;
    ends_test(p)?;
    Ok(second)
}

/// test = sum [("=" | "<>" | "<" | "<=" | ">" | ">=") sum | IS [NOT] NULL]
#[cycle(expression)]
fn test(p: &mut Parser, levels: u32) -> Result<Expr, SqlFault>
    requires ready { IsReady p.old }
    ensures keeps { Keeps p.old p.new }
    ensures told { Told tree_of Test 3 levels p.old p.new result }
{
    let first = sum(p, levels)?;
    if let Some(sign) = sign(p.kind) {
        let second = second_sum(p, levels)?;
        return Ok(compared(p.alloc, first, sign, second)?);
    }
    if !p.is(Kind::Is) {
        return Ok(first);
    }
    let not = asks(p)?;
    Ok(asked(p.alloc, first, not)?)
}

/// neg = NOT neg | test
#[cycle(expression)]
fn neg(p: &mut Parser, levels: u32) -> Result<Expr, SqlFault>
    requires ready { IsReady p.old }
    ensures keeps { Keeps p.old p.new }
    ensures told { Told tree_of Neg 3 levels p.old p.new result }
{
    if !p.is(Kind::Not) {
        return test(p, levels);
    }
    if levels == 0 {
        return Err(p.too_deep());
    }
    p.advance();
    let part = neg(p, levels - 1)?;
    Ok(Expr::Not(Box::new(p.alloc, part)?))
}

/// conj = neg {AND neg}
#[cycle(expression)]
fn conj(p: &mut Parser, levels: u32) -> Result<Expr, SqlFault>
    requires ready { IsReady p.old }
    ensures keeps { Keeps p.old p.new }
    ensures told { Told tree_of Conj 2 levels p.old p.new result }
{
    let first = neg(p, levels)?;
    if !p.is(Kind::And) {
        return Ok(first);
    }
    let mut parts = Vec::new(p.alloc);
    parts.push(first)?;
    while p.is(Kind::And) {
        p.advance();
        let part = neg(p, levels)?;
        parts.push(part)?;
    }
    Ok(Expr::And(parts))
}

/// expr = conj {OR conj}
#[cycle(expression)]
pub(crate) fn expr(p: &mut Parser, levels: u32) -> Result<Expr, SqlFault>
    requires ready { IsReady p.old }
    ensures keeps { Keeps p.old p.new }
    ensures told { Told tree_of ExprRule 1 levels p.old p.new result }
{
    let first = conj(p, levels)?;
    if !p.is(Kind::Or) {
        return Ok(first);
    }
    let mut parts = Vec::new(p.alloc);
    parts.push(first)?;
    while p.is(Kind::Or) {
        p.advance();
        let part = conj(p, levels)?;
        parts.push(part)?;
    }
    Ok(Expr::Or(parts))
}
