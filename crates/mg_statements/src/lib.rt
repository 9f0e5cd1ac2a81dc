//! What a statement of the query language is, and why a text is none.
//!
//! Owns: `Statement`, the tree of a statement with names as the text has them, in capitals, and
//! `SqlFault`, the first fault of a text. The mathematical value of a statement is the plain
//! statement (`plain_of`), since two equal ones lie at different addresses.
//!
//! Invariant: none of its own; which texts are which statement says the parser.
//! Below: `mg_base`, `mg_value`, `mg_expr`. Above: the parser `mg_sql`; beside it, so that neither
//! waits for the other, the binding of names and the plan, and what carries a plan out.
#![tactic(auto)]

mod fault;
mod statement;

pub use fault::SqlFault;
pub use statement::{Agg, Assign, Def, MOST_SIZE, Sorted, Statement, let_go};
