//! Parts of which statements are made: names, expressions, filters.

ghost use Rattle.std.specs.Prelude.{◌≡◌, ◌<◌, List, ℕ, Option, None, true};
ghost use Rattle.mg_sql.specs.declared.token.Kind.TheVariants as kinds;
ghost use Rattle.mg_expr.specs.Trees.{Tree, tree_of};
ghost use Rattle.mg_sql.specs.Reading.{IsReady, Keeps};
ghost use Rattle.mg_statements.specs.Plain.{tree_in};
ghost use Rattle.mg_sql.specs.Statements.{Rest, name as name_rule, expression as expression_rule, filter as filter_rule, shift};
ghost use Rattle.mg_sql.specs.Going.{Goes, Never, begins_in, behind_item};

use crate::expr::expr;
use crate::parser::Parser;
use crate::token::Kind;
use mg_expr::Expr;
use mg_statements::SqlFault;
use mg_value::Name;

/// So many levels of parentheses, NOT and minus may be open.
pub const LEVELS: u32 = 32;

/// Reads a name.
pub(crate) fn name(p: &mut Parser) -> Result<Name, SqlFault>
    requires ready { IsReady p.old }
    ensures keeps { Keeps p.old p.new }
    ensures told { (then_ : List ℕ → Rest) → Goes (λ name. name) (name_rule then_) then_ p.old p.new result }
{
    if !p.is(Kind::Name) {
        return Err(p.syntax());
    }
    p.name()
}

/// How many levels an expression may open, within parentheses of its statement or not.
fn levels(within: bool) -> u32
    ensures { shift within result ≡ LEVELS }
{
    if within { LEVELS - 1 } else { LEVELS }
}

/// Reads an expression, which stands within parentheses of the statement or not.
pub(crate) fn expression(p: &mut Parser, within: bool) -> Result<Expr, SqlFault>
    requires ready { IsReady p.old }
    ensures keeps { Keeps p.old p.new }
    ensures told { (then_ : Tree → Rest) → ((e : Tree) → begins_in behind_item (then_ e) ≡ true)
        → Goes tree_of (expression_rule within then_) then_ p.old p.new result }
{
    expr(p, levels(within))
}

/// [WHERE expr]
pub(crate) fn filter(p: &mut Parser) -> Result<Option<Expr>, SqlFault>
    requires ready { IsReady p.old }
    ensures keeps { Keeps p.old p.new }
    ensures told { (then_ : Option Tree → Rest) → ((e : Option Tree) → begins_in behind_item (then_ e) ≡ true)
        → Never (then_ None) kinds.Where
        → Goes tree_in (filter_rule then_) then_ p.old p.new result }
{
    if !p.takes(Kind::Where) {
        return Ok(None);
    }
    let filter = expression(p, false)?;
    Ok(Some(filter))
}
