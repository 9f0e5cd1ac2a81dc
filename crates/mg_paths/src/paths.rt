//! The ways in which a statement finds its rows.

use crate::range::Range;

/// How the rows of a table are found.
#[derive(Debug, Drop)]
pub enum Path {
    /// All records of the table are visited.
    Natural,
    /// The entries of an index, by its place in the table's list, are visited whose keys lie in a range.
    Index(usize, Range),
}
