//! Why a statement is refused before a row is read.

ghost use Rattle.std.specs.Prelude.{◌≡◌};
ghost use Rattle.mg_plan.specs.declared.fault.PlanFault.TheVariants as faults;

use mg_base::Memory;
use std::fmt;

/// Why a statement is refused before a row is read, in the order of the tests. `Display` gives the
/// printed text.
#[derive(Clone, Copy, Debug, PartialEq, Eq)]
pub enum PlanFault {
    /// A column is named twice in a list or a shape.
    ColumnExists,
    /// A new table has more columns than this.
    TooMany { limit: u32 },
    /// A name is no column of the table. The values of an INSERT can name none.
    NoColumn,
    /// A new table has not exactly one primary key.
    OneKey,
    /// The values of an INSERT and its columns differ in number.
    CountMismatch,
    /// An UPDATE sets the primary key.
    KeyChange,
    /// An expression has not the type that is wanted where it stands.
    TypeMismatch,
    /// A row of the shape would be longer than half a page. Both numbers are in bytes.
    RowTooLong { len: u32, limit: u32 },
    /// A key can be longer than an eighth of a page. Both numbers are in bytes.
    KeyTooLong { len: u32, limit: u32 },
    Memory,
}

impl From<Memory> for PlanFault {
    ghost from_gives = { λ _ fault. fault ≡ faults.Memory };

    fn from(_: Memory) -> Self {
        PlanFault::Memory
    }
}

impl PlanFault {
    /// What is printed of it in front of its numbers.
    fn text(&self) -> &'static str {
        match self {
            PlanFault::ColumnExists => "COLUMN EXISTS",
            PlanFault::TooMany { .. } => "TOO MANY",
            PlanFault::NoColumn => "NO COLUMN",
            PlanFault::OneKey => "ONE KEY",
            PlanFault::CountMismatch => "COUNT MISMATCH",
            PlanFault::KeyChange => "KEY CHANGE",
            PlanFault::TypeMismatch => "TYPE MISMATCH",
            PlanFault::RowTooLong { .. } => "ROW TOO LONG",
            PlanFault::KeyTooLong { .. } => "KEY TOO LONG",
            PlanFault::Memory => "OUT OF MEMORY",
        }
    }
}

impl fmt::Display for PlanFault {
    fn fmt<W: fmt::Write>(&self, f: &mut fmt::Formatter<W>) -> fmt::Result {
        f.write_str(self.text())?;
        match self {
            PlanFault::TooMany { limit } => write!(f, " LIMIT {limit}"),
            PlanFault::RowTooLong { len, limit } | PlanFault::KeyTooLong { len, limit } => {
                write!(f, " {len} LIMIT {limit}")
            }
            PlanFault::ColumnExists
            | PlanFault::NoColumn
            | PlanFault::OneKey
            | PlanFault::CountMismatch
            | PlanFault::KeyChange
            | PlanFault::TypeMismatch
            | PlanFault::Memory => Ok(()),
        }
    }
}
