//! What transactions did to the rows of a database.

ghost use Rattle.std.specs.Prelude.{◌≡◌, IfOk};

use mg_base::{Memory, TxNo};
use mg_value::{Name, Row, Value};
use std::alloc::Global;

/// The row with this key was made or changed, or deleted where there is none.
#[derive(Debug, Drop)]
pub struct Change {
    pub table: Name,
    /// The value that names the row. A lawful row's is no NULL.
    pub key: Value,
    /// The row that the key has after the change, none where it was deleted.
    pub row: Option<Row>,
}

impl Change {
    /// An equal change.
    ///
    /// # Errors
    ///
    /// `Memory` only.
    pub fn copy(&self, alloc: Global) -> Result<Change, Memory>
        ensures { IfOk result (λ change. change ≡ self.now) }
    {
        Ok(Change {
            table: self.table,
            key: self.key.copy(alloc)?,
            row: copy_row(alloc, &self.row)?,
        })
    }
}

/// An equal row, if there is one.
///
/// # Errors
///
/// `Memory` only.
pub fn copy_row(alloc: Global, row: &Option<Row>) -> Result<Option<Row>, Memory>
    ensures { IfOk result (λ copied. copied ≡ row.now) }
{
    match row {
        Some(row) => Ok(Some(row.copy(alloc)?)),
        None => Ok(None),
    }
}

/// A point to which a transaction is taken back.
#[derive(Clone, Copy, Debug)]
pub enum Point {
    /// The last mark that stands.
    LastMark,
    /// The last savepoint of this name that stands.
    SavepointNamed(Name),
}

/// What a step of a transaction did.
#[derive(Debug, Drop)]
pub enum Deed {
    /// A row was made, changed or deleted.
    Changed(Change),
    /// A point to which one statement can be taken back.
    Marked,
    /// A point to which the transaction can be taken back by name.
    Saved(Name),
}

/// A step of a transaction that stands: it was not taken back.
#[derive(Debug, Drop)]
pub struct Step {
    pub by: TxNo,
    pub deed: Deed,
}
