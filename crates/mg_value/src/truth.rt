//! Truth with three values.

/// What a condition says of a row. It is unknown where it compares with NULL.
#[derive(Clone, Copy, Debug, PartialEq, Eq)]
pub enum Truth {
    False,
    Unknown,
    True,
}
