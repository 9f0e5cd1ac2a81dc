//! The binding of statements: names of columns become places, and what no row can change is refused.
//!
//! Owns: `Bound`, a statement whose expressions have columns in place of names, and `PlanFault`, why
//! a statement is refused before a row is read.
//!
//! The definitions stand in `specs/`: `Names` (which column a name is), `Binding` (trees with columns
//! in place of names), `Types` (which type fits where), `Statements` (what is tested of each
//! statement, and what it is once bound), `Refusing` (the order of the tests, and what `bind`
//! answers), `Plans` (by which path a bound statement finds its rows: the plan of its filter, `path`). The types of
//! expressions are those of `mg_expr`.
//!
//! The tests stand in one order for all statements: a column named twice, too many columns, a name
//! that is no column's, not one primary key, values and columns that differ in number, a primary key
//! that is set, a wrong type, a row too long, a key too long.
//!
//! Below: `mg_statements`, `mg_expr`, `mg_model`, `mg_sortkey`; `mg_paths`, for plans. Above: the statements' steps.
//! Not here: whether there is such a table, and all that depends on rows.
#![tactic(auto)]

mod binding;
mod bound;
mod fault;
mod filters;
mod knowing;
mod names;
mod planning;
mod shapes;
mod statements;
mod typing;

pub use bound::{Bound, bind, let_go};
pub use fault::PlanFault;
pub use filters::filter_of;
pub use planning::path;
pub use shapes::shape_of;
