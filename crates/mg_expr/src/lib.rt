//! Expressions of the query language: their trees, and what they say of a row. A condition has one
//! of three truths, and arithmetic is exact on 64 bits or faults.
//!
//! Owns: `Expr`, the tree that the parser makes and that events carry. Its mathematical value is
//! the bare tree (`tree_of`), since two equal trees lie at different addresses.
//!
//! Meaning: a tree gives a value, holds as a truth, or faults (`Says`). AND and OR go from the left
//! and skip what can't change the truth any more, so a fault there doesn't count. All other
//! operands are evaluated. Arithmetic with NULL is NULL, and a comparison with NULL is unknown.
//! The only fault is a result that leaves 64 bits, or a division by 0.
//! A filter is tested part by part, and stops at the first part that is not TRUE.
//!
//! Below: `mg_base`, `mg_value`. Above: the parser, the history machine, plans and statements.
//! Not here: how a text becomes a tree, how names become columns, and which plan serves a filter.
#![tactic(auto)]

mod arithmetic;
mod copying;
mod evaluating;
mod expr;
mod fault;
mod logic;
mod meaning;
mod outcome;

pub use evaluating::{evaluate, test};
pub use expr::{Expr, Part, Sign};
pub use fault::EvalFault;
pub use meaning::{
    a_filter_passes_where_it_is_true, arithmetic_is_exact, null_compares_with_nothing,
    truths_have_three_values, types_hold,
};
