//! What no clause says of SQL and of command lines: that calls succeed with ample memory, and
//! worked rows.

mod cases;
mod expr;
mod plan;
mod shapes;
mod sql;
mod texts;
mod words;
