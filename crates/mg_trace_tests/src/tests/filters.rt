//! Filters, and the text of each.

use super::events::{name, text};
use mg_base::TxNo;
use mg_expr::{Expr, Part, Sign};
use mg_model::Answer;
use mg_trace::Trace;
use std::alloc::Global;
use std::test::Fail;

fn boxed(alloc: Global, e: Expr) -> Result<Box<Expr>, Fail> {
    Ok(Box::new(alloc, e)?)
}

fn compared(alloc: Global, a: Expr, sign: Sign, b: Expr) -> Result<Expr, Fail> {
    Ok(Expr::Compare(boxed(alloc, a)?, sign, boxed(alloc, b)?))
}

/// #0 + 1 - 2.
fn sum(alloc: Global) -> Result<Expr, Fail> {
    let mut parts = Vec::new(alloc);
    parts.push(Part {
        inverse: false,
        value: Expr::Integer(1),
    })?;
    parts.push(Part {
        inverse: true,
        value: Expr::Integer(2),
    })?;
    Ok(Expr::Sum(boxed(alloc, Expr::Column(0))?, parts))
}

/// -3 * - #1 / 4.
fn product(alloc: Global) -> Result<Expr, Fail> {
    let mut parts = Vec::new(alloc);
    parts.push(Part {
        inverse: false,
        value: Expr::Minus(boxed(alloc, Expr::Column(1))?),
    })?;
    parts.push(Part {
        inverse: true,
        value: Expr::Integer(4),
    })?;
    Ok(Expr::Product(boxed(alloc, Expr::Integer(-3))?, parts))
}

/// NOT #2 IS NULL AND #2 IS NOT NULL.
fn tested(alloc: Global) -> Result<Expr, Fail> {
    let mut parts = Vec::new(alloc);
    let is_null = Expr::IsNull(boxed(alloc, Expr::Column(2))?);
    parts.push(Expr::Not(boxed(alloc, is_null)?))?;
    parts.push(Expr::IsNotNull(boxed(alloc, Expr::Column(2))?))?;
    Ok(Expr::And(parts))
}

/// A sum and a product, compared with others, or a test, or whether a text is another one.
fn filter(alloc: Global) -> Result<Expr, Fail> {
    let mut parts = Vec::new(alloc);
    parts.push(compared(alloc, sum(alloc)?, Sign::AtMost, product(alloc)?)?)?;
    parts.push(tested(alloc)?)?;
    parts.push(compared(
        alloc,
        Expr::Text(text(alloc, b"a'b")?),
        Sign::Unequal,
        Expr::Null,
    )?)?;
    Ok(Expr::Or(parts))
}

/// Its text in a line.
const LINE: &str =
    "FIND 7 KV (((#0 + 1 - 2) <= (-3 * (- #1) / 4)) OR ((NOT (#2 IS NULL)) AND (#2 IS NOT NULL)) OR ('a''b' <> NULL)) -> FINE\n";

/// The trace of a finding with that filter.
fn noted(alloc: Global, kv: &mg_value::Name) -> Result<Trace, Fail> {
    let filter = Some(filter(alloc)?);
    let mut trace = Trace::new(alloc);
    trace.note_find(TxNo(7), kv, &filter, &Answer::Fine);
    Ok(trace)
}

#[test]
fn a_compound_expression_stands_in_one_pair_of_parentheses(rt: HostRuntime) -> Result<(), Fail> {
    let kv = name(&rt, b"KV");
    let trace = noted(rt.alloc(), &kv)?;
    assert!(rt; trace.whole);
    assert!(rt; trace.text.as_slice() == LINE.as_bytes());
    Ok(())
}
