//! What statements compute of rows, without a record or a page: which rows pass a filter, their
//! orders, what a SELECT gives of them, totals, and the new rows of INSERT and UPDATE with their
//! faults.
//!
//! Owns: `Outcome`, what a statement comes to, `StatementFault`, why it is refused, `NewRowFault`, why a
//! row can't be made, and `OrderBy`.
//!
//! The definitions stand in `specs/`: `Found` (which rows pass), `Orders` (by the primary key, and by a
//! column), `Selecting` (what a SELECT of expressions answers), `Totals` (COUNT and SUM), `NewRows`
//! (new rows, and the first fault), `Faults` (the fault of a statement that a lower one is). They
//! speak of trees of expressions that are bound: a column stands in place of each name.
//!
//! A fault of arithmetic at any row refuses the whole statement. Of several new rows the first fault
//! counts, row by row in the order given; of one row arithmetic comes first, then NULL, then texts
//! that are too long.
//!
//! Below: `mg_expr`, `mg_plan`, whose bound statements these compute, and `mg_model`. Above: the
//! statements' steps.
//! Not here: how rows are come by, and what is written.
#![tactic(auto)]

mod fault;
mod filling;
mod filtering;
mod laws;
mod new_rows;
mod ordering;
mod outcome;
mod selecting;
mod statement_fault;
mod totals;

pub use fault::NewRowFault;
pub use filtering::keep;
pub use laws::{bound_values_fit, new_rows_fit, order_of_visits_is_nothing};
pub use new_rows::{insert_row, update_rows};
pub use ordering::{OrderBy, sort_by_key};
pub use outcome::Outcome;
pub use selecting::select;
pub use statement_fault::StatementFault;
pub use totals::total_row;
