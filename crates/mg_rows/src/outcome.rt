//! What a statement comes to.

use mg_model::Rows;

/// What a statement comes to that is not refused.
#[derive(Debug, Drop)]
pub enum Outcome {
    /// The rows of a SELECT.
    Rows(Rows),
    /// How many rows an INSERT, an UPDATE or a DELETE wrote.
    Count(u64),
    /// Any other statement took effect.
    Fine,
}
