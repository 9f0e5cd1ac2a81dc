//! The plan of a filter: through which index a statement finds its rows, and in which range of keys.
//!
//! Owns: `Range`, from one key to another; `Path`, how the rows of a table are found; and the rule that gives it.
//!
//! A **serving part** of a filter compares, by `=`, `<`, `<=`, `>` or `>=`, a column on its left with a constant on its
//! right. A constant is an integer, one minus before an integer, or a text. Where the first of the parts of the AND at
//! the top (the filter itself, where it is no AND) is a serving part and its column has an index, the rows are found
//! through the first index on that column in the table's list, in a range. The range comes from the longest leading run
//! of serving parts on that column: its low end is the greatest constant of the parts with `=`, `>` and `>=`, its high
//! end the least of those with `=`, `<` and `<=`; an end without such a part is open. In every other case all records of
//! the table are visited.
//!
//! The law (`a_plan_covers_its_filter`): a row whose value lies outside of the range is dropped by the filter, and no
//! part of it faults before. So a plan changes no answer.
//!
//! Definitions: `specs/Ranges` (what lies in a range), `Within` (the rows that do, and those to which a plan comes), `Plans`
//! (the rule), `Covering` (the law); `CoverLaws` proves it, `PlannedLaws` that the index of a plan is one of the table's.
//!
//! Invariant: none, it keeps no state.
//! Below: `mg_expr`, `mg_model`, `mg_value`. Above: the binding of statements, and the keepers of records.
//! Not here: how a range is walked, and which tables have an index.
#![tactic(auto)]

mod laws;
mod parts;
mod paths;
mod planning;
mod range;

pub use laws::{a_plan_covers_its_filter, planned_indexes_are_there};
pub use paths::Path;
pub use planning::path;
pub use range::Range;
