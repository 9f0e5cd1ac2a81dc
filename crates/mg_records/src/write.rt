//! A write of a row.

use mg_value::{Key, Row};

/// A write of a row to a table.
#[derive(Debug, Drop)]
pub enum Write {
    /// A new row.
    Insert(Row),
    /// The row with this key becomes this one, which has the same key.
    Change(Key, Row),
    /// The row with this key is deleted.
    Erase(Key),
}
