//! Expressions that are evaluated by hand.

use super::cases::{Case, hold_each};
use mg_expr::{EvalFault, Expr, Part, Sign, evaluate, test};
use mg_value::{Row, Truth, Txt, Value, print};
use std::alloc::Global;
use std::test::Fail;

/// A step of an expression, which the tests write as one enters it into a calculator that takes
/// numbers first and then what is done with them.
#[derive(Clone, Copy)]
enum Step {
    Column(u16),
    Integer(i64),
    Null,
    IsNull,
    IsNotNull,
    Not,
    Negative,
    Compare(Sign),
    Minus,
    Over,
    And,
    Or,
}

/// An expression that stands alone, if a step makes one.
fn leaf_of(step: Step) -> Option<Expr> {
    match step {
        Step::Column(place) => Some(Expr::Column(place)),
        Step::Integer(number) => Some(Expr::Integer(number)),
        Step::Null => Some(Expr::Null),
        _ => None,
    }
}

/// The expression over one other that a step makes.
fn over_one(step: Step, a: Box<Expr>) -> Expr {
    match step {
        Step::IsNull => Expr::IsNull(a),
        Step::IsNotNull => Expr::IsNotNull(a),
        Step::Not => Expr::Not(a),
        _ => Expr::Minus(a),
    }
}

fn compare(alloc: Global, a: Expr, sign: Sign, b: Expr) -> Result<Expr, Fail> {
    Ok(Expr::Compare(Box::new(alloc, a)?, sign, Box::new(alloc, b)?))
}

/// The one part of a sum or a product that is taken away or divided by.
fn inverse(alloc: Global, value: Expr) -> Result<Vec<Part>, Fail> {
    let part = Part {
        inverse: true,
        value,
    };
    Ok(vec![in alloc; part]?)
}

fn difference(alloc: Global, a: Expr, b: Expr) -> Result<Expr, Fail> {
    Ok(Expr::Sum(Box::new(alloc, a)?, inverse(alloc, b)?))
}

fn quotient(alloc: Global, a: Expr, b: Expr) -> Result<Expr, Fail> {
    Ok(Expr::Product(Box::new(alloc, a)?, inverse(alloc, b)?))
}

fn both(alloc: Global, a: Expr, b: Expr) -> Result<Vec<Expr>, Fail> {
    Ok(vec![in alloc; a, b]?)
}

/// The expression over two others that a step makes.
fn over_two(alloc: Global, step: Step, a: Expr, b: Expr) -> Result<Expr, Fail> {
    match step {
        Step::Compare(sign) => compare(alloc, a, sign, b),
        Step::Minus => difference(alloc, a, b),
        Step::Over => quotient(alloc, a, b),
        Step::And => Ok(Expr::And(both(alloc, a, b)?)),
        _ => Ok(Expr::Or(both(alloc, a, b)?)),
    }
}

/// Takes the last expression.
fn take(made: &mut Vec<Expr>) -> Result<Expr, Fail> {
    Ok(made.pop().ok_or("an expression is missing")?)
}

/// Tells whether a step works on one expression.
fn has_one(step: Step) -> bool {
    matches!(
        step,
        Step::IsNull | Step::IsNotNull | Step::Not | Step::Negative
    )
}

/// The expression that a step makes of the last ones, which it takes.
fn made_by(alloc: Global, made: &mut Vec<Expr>, step: Step) -> Result<Expr, Fail> {
    if let Some(leaf) = leaf_of(step) {
        return Ok(leaf);
    }
    let last = take(made)?;
    if has_one(step) {
        return Ok(over_one(step, Box::new(alloc, last)?));
    }
    let first = take(made)?;
    over_two(alloc, step, first, last)
}

/// The expression that steps make.
fn expression(alloc: Global, steps: &[Step]) -> Result<Expr, Fail> {
    let mut made = Vec::new(alloc);
    for step in steps {
        let next = made_by(alloc, &mut made, *step)?;
        made.push(next)?;
    }
    take(&mut made)
}

/// A row of 7, NULL and 'a'.
fn row(alloc: Global) -> Result<Row, Fail> {
    let text = Value::Text(Txt::new(alloc, b"a", 1)?);
    Ok(Row::new(vec![in alloc; Value::Int(7), Value::Null, text]?))
}

/// Tells whether an expression has this truth at that row.
fn has_truth(alloc: Global, e: &Expr, truth: Result<Truth, EvalFault>) -> Result<bool, Fail> {
    let row = row(alloc)?;
    Ok(test(alloc, e, &row) == truth)
}

/// The copy of an expression.
fn copy_of(alloc: Global, e: &Expr) -> Result<Expr, Fail> {
    Ok(e.copy(alloc)?)
}

/// A condition, and the truth of it and of its copy.
struct Condition(&'static [Step], Result<Truth, EvalFault>);

impl Case for Condition {
    fn holds(&self, alloc: Global) -> Result<bool, Fail> {
        let e = expression(alloc, self.0)?;
        let copy = copy_of(alloc, &e)?;
        Ok(has_truth(alloc, &e, self.1)? && has_truth(alloc, &copy, self.1)?)
    }
}

const CONDITIONS: &[Condition] = &[
    // column 0 < 8
    Condition(
        &[Step::Column(0), Step::Integer(8), Step::Compare(Sign::Less)],
        Ok(Truth::True),
    ),
    // column 1 = NULL
    Condition(
        &[Step::Column(1), Step::Null, Step::Compare(Sign::Equal)],
        Ok(Truth::Unknown),
    ),
    // column 1 = NULL AND 1 / 0 IS NULL
    Condition(
        &[
            Step::Column(1),
            Step::Null,
            Step::Compare(Sign::Equal),
            Step::Integer(1),
            Step::Integer(0),
            Step::Over,
            Step::IsNull,
            Step::And,
        ],
        Err(EvalFault::Arithmetic),
    ),
    // column 0 IS NULL AND 1 / 0 IS NULL
    Condition(
        &[
            Step::Column(0),
            Step::IsNull,
            Step::Integer(1),
            Step::Integer(0),
            Step::Over,
            Step::IsNull,
            Step::And,
        ],
        Ok(Truth::False),
    ),
    // NOT (column 0 IS NULL AND 1 / 0 IS NULL)
    Condition(
        &[
            Step::Column(0),
            Step::IsNull,
            Step::Integer(1),
            Step::Integer(0),
            Step::Over,
            Step::IsNull,
            Step::And,
            Step::Not,
        ],
        Ok(Truth::True),
    ),
    // column 0 IS NOT NULL OR 1 / 0 IS NULL
    Condition(
        &[
            Step::Column(0),
            Step::IsNotNull,
            Step::Integer(1),
            Step::Integer(0),
            Step::Over,
            Step::IsNull,
            Step::Or,
        ],
        Ok(Truth::True),
    ),
];

#[test]
fn a_condition_has_three_truths_and_skips_what_cant_change_it(rt: HostRuntime) -> Result<(), Fail> {
    hold_each(&rt, rt.alloc(), CONDITIONS)
}

/// The value of an expression at that row, or its fault.
fn evaluated(alloc: Global, e: &Expr) -> Result<Result<Value, EvalFault>, Fail> {
    let row = row(alloc)?;
    Ok(evaluate(alloc, e, &row))
}

/// Tells whether a value prints so.
fn prints(alloc: Global, value: &Value, wanted: &[u8]) -> Result<bool, Fail> {
    let mut out = Vec::new(alloc);
    print(value, &mut out)?;
    Ok(out.as_slice() == wanted)
}

/// Tells whether an expression has a value that prints so.
fn gives(alloc: Global, e: &Expr, wanted: &[u8]) -> Result<bool, Fail> {
    match evaluated(alloc, e)? {
        Ok(value) => prints(alloc, &value, wanted),
        Err(_) => Ok(false),
    }
}

/// An expression, and what the value of it and of its copy prints.
struct Valued(&'static [Step], &'static [u8]);

impl Case for Valued {
    fn holds(&self, alloc: Global) -> Result<bool, Fail> {
        let e = expression(alloc, self.0)?;
        let copy = copy_of(alloc, &e)?;
        Ok(gives(alloc, &e, self.1)? && gives(alloc, &copy, self.1)?)
    }
}

const VALUES: &[Valued] = &[
    Valued(&[Step::Column(2)], b"'a'"),
    // column 0 - 10
    Valued(&[Step::Column(0), Step::Integer(10), Step::Minus], b"-3"),
    // column 0 / -2
    Valued(
        &[
            Step::Column(0),
            Step::Integer(2),
            Step::Negative,
            Step::Over,
        ],
        b"-3",
    ),
    // NULL / 0
    Valued(&[Step::Null, Step::Integer(0), Step::Over], b"NULL"),
];

#[test]
fn arithmetic_is_exact_and_division_goes_toward_zero(rt: HostRuntime) -> Result<(), Fail> {
    hold_each(&rt, rt.alloc(), VALUES)
}

/// An expression that has no value.
struct Unvalued(&'static [Step]);

impl Case for Unvalued {
    fn holds(&self, alloc: Global) -> Result<bool, Fail> {
        let e = expression(alloc, self.0)?;
        Ok(evaluated(alloc, &e)?.err() == Some(EvalFault::Arithmetic))
    }
}

const UNVALUED: &[Unvalued] = &[Unvalued(&[Step::Integer(i64::MIN), Step::Negative])];

#[test]
fn a_number_past_the_greatest_is_a_fault(rt: HostRuntime) -> Result<(), Fail> {
    hold_each(&rt, rt.alloc(), UNVALUED)
}

#[test]
fn faults_print_their_words(rt: HostRuntime) -> Result<(), Fail> {
    let words = format!(in rt.alloc(); "{}, {}", EvalFault::Arithmetic, EvalFault::Memory)?;
    assert_eq!(rt; words.as_str(), "ARITHMETIC, OUT OF MEMORY");
    Ok(())
}
