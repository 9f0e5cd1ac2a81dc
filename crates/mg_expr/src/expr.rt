//! The tree of an expression.

use mg_value::{Name, Txt};

/// How two values are compared.
#[derive(Clone, Copy, Debug, PartialEq, Eq)]
pub enum Sign {
    Equal,
    Unequal,
    Less,
    AtMost,
    Greater,
    AtLeast,
}

/// A further part of a sum or a product.
#[derive(Debug, Drop)]
#[cycle(expression)]
pub struct Part {
    /// It is subtracted, or divided by.
    pub inverse: bool,
    pub value: Expr,
}

/// An expression. A bound one has `Column` in place of each `Name`.
#[derive(Debug, Drop)]
#[cycle(expression)]
pub enum Expr {
    Or(Vec<Expr>),
    And(Vec<Expr>),
    Not(Box<Expr>),
    Compare(Box<Expr>, Sign, Box<Expr>),
    IsNull(Box<Expr>),
    IsNotNull(Box<Expr>),
    /// A first part, and those that are added or subtracted.
    Sum(Box<Expr>, Vec<Part>),
    /// A first part, and those by which it is multiplied or divided.
    Product(Box<Expr>, Vec<Part>),
    Minus(Box<Expr>),
    Integer(i64),
    Text(Txt),
    Null,
    Name(Name),
    /// The value of the column at this place.
    Column(u16),
}
