//! Expressions are put.

ghost use Rattle.std.specs.Prelude.{◌≡◌, ◌∷◌, ◌++◌, [], codes, decimal, if◌then◌else◌, map};
ghost use Rattle.std.specs.List.{flat_map};
ghost use Rattle.mg_expr.specs.Trees.{part_tree, parts_of, tree_of, trees_of};
ghost use Rattle.mg_trace.specs.Putting.{Puts};
ghost use Rattle.mg_trace.specs.Trees.{all_text, expr_text, filter_text, part_text, sign_text};

use crate::trace::Trace;
use mg_expr::{Expr, Part, Sign};
use mg_value::Value;

/// Puts a filter.
pub(crate) fn put_filter(trace: &mut Trace, filter: &Option<Expr>)
    ensures { Puts trace.old trace.new (filter_text filter.now) }
{
    match filter {
        None => trace.word("ALL"),
        Some(e) => put_expr(trace, e),
    }
}

// Puts an expression.
#[cycle(printing)]
fn put_expr(trace: &mut Trace, e: &Expr)
    ensures { Puts trace.old trace.new (expr_text e.now) }
{
    match e {
        Expr::Or(parts) => put_all(trace, " OR ", parts),
        Expr::And(parts) => put_all(trace, " AND ", parts),
        Expr::Not(part) => put_around(trace, "(NOT ", part, ")"),
        Expr::Compare(a, sign, b) => {
            put_around(trace, "(", a, "");
            put_sign(trace, *sign);
            put_around(trace, "", b, ")");
        }
        Expr::IsNull(part) => put_around(trace, "(", part, " IS NULL)"),
        Expr::IsNotNull(part) => put_around(trace, "(", part, " IS NOT NULL)"),
        Expr::Sum(first, parts) => {
            put_around(trace, "(", first, "");
            put_parts(trace, " + ", " - ", parts);
        }
        Expr::Product(first, parts) => {
            put_around(trace, "(", first, "");
            put_parts(trace, " * ", " / ", parts);
        }
        Expr::Minus(part) => put_around(trace, "(- ", part, ")"),
        Expr::Integer(number) => trace.value(&Value::Int(*number)),
        Expr::Text(text) => trace.quoted(text),
        Expr::Null => trace.word("NULL"),
        Expr::Name(name) => trace.name(name),
        Expr::Column(place) => put_column(trace, *place),
    }
}

// Puts a column by its place.
fn put_column(trace: &mut Trace, place: u16)
    ensures { Puts trace.old trace.new (codes "#" ++ decimal place) }
{
    trace.word("#");
    trace.number(u64::from(place));
}

// Puts an expression between two words.
#[cycle(printing)]
fn put_around(trace: &mut Trace, before: &str, e: &Expr, behind: &str)
    ensures { Puts trace.old trace.new (before.now ++ (expr_text e.now ++ behind.now)) }
{
    trace.word(before);
    put_expr(trace, e);
    trace.word(behind);
}

// Puts how two values are compared.
fn put_sign(trace: &mut Trace, sign: Sign)
    ensures { Puts trace.old trace.new (sign_text sign) }
{
    match sign {
        Sign::Equal => trace.word(" = "),
        Sign::Unequal => trace.word(" <> "),
        Sign::Less => trace.word(" < "),
        Sign::AtMost => trace.word(" <= "),
        Sign::Greater => trace.word(" > "),
        Sign::AtLeast => trace.word(" >= "),
    }
}

// Puts expressions in parentheses, with a word between neighbours.
#[cycle(printing)]
fn put_all(trace: &mut Trace, between: &str, parts: &[Expr])
    ensures { Puts trace.old trace.new
        (codes "(" ++ (all_text between.now (trees_of (map tree_of parts.now)) ++ codes ")")) }
{
    trace.word("(");
    let mut has_before = false;
    for part in parts {
        put_next(trace, between, has_before, part);
        has_before = true;
    }
    trace.word(")");
}

// Puts an expression behind a word, if there is one before it.
#[cycle(printing)]
fn put_next(trace: &mut Trace, between: &str, has_before: bool, part: &Expr)
    ensures { Puts trace.old trace.new ((if has_before then between.now else []) ++ expr_text part.now) }
{
    if has_before {
        trace.word(between);
    }
    put_expr(trace, part);
}

// Puts the further parts of a sum or a product, and the end of its parentheses.
#[cycle(printing)]
fn put_parts(trace: &mut Trace, plus: &str, minus: &str, parts: &[Part])
    ensures { Puts trace.old trace.new
        (flat_map (part_text plus.now minus.now) parts.now ++ codes ")") }
{
    for part in parts {
        put_part(trace, plus, minus, part);
    }
    trace.word(")");
}

// Puts a further part behind its symbol.
#[cycle(printing)]
fn put_part(trace: &mut Trace, plus: &str, minus: &str, part: &Part)
    ensures { Puts trace.old trace.new (part_text plus.now minus.now part.now) }
{
    if part.inverse {
        trace.word(minus);
    } else {
        trace.word(plus);
    }
    put_expr(trace, &part.value);
}
