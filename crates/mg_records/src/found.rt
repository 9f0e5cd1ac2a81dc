//! A record that a walk has come to.

use mg_value::{Key, Row};

/// A record that a walk has come to.
#[derive(Debug, Drop)]
pub struct Found<P> {
    pub place: P,
    /// The row that the transaction sees there with the key under which it stands, None where it
    /// sees none.
    pub row: Option<(Key, Row)>,
}
