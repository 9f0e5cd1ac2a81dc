//! Why a text is no statement.

ghost use Rattle.std.specs.Prelude.{◌≡◌};
ghost use Rattle.mg_statements.specs.declared.fault.SqlFault.TheVariants as faults;

use mg_base::Memory;
use std::alloc::{AllocError, AllocFailed};
use std::fmt;

/// Why a text is no statement: the first fault in it, and the byte where it is told, counted from 0.
#[derive(Clone, Copy, Debug, PartialEq, Eq)]
pub enum SqlFault {
    /// No statement can go on with the token that begins here, or with the text's end.
    Syntax { at: u32 },
    /// A name of more than 31 bytes.
    NameTooLong { at: u32 },
    /// An integer above 9223372036854775807.
    NumberTooLarge { at: u32 },
    /// The token that opens the 33rd level of parentheses, NOT and unary minus.
    TooDeep { at: u32 },
    Memory,
}

impl From<Memory> for SqlFault {
    ghost from_gives = { λ _ fault. fault ≡ faults.Memory };

    fn from(_: Memory) -> Self {
        SqlFault::Memory
    }
}

impl From<AllocError> for SqlFault {
    ghost from_gives = { λ _ fault. fault ≡ faults.Memory };

    fn from(_: AllocError) -> Self {
        SqlFault::Memory
    }
}

impl<T: Drop> From<AllocFailed<T>> for SqlFault {
    ghost from_gives = { λ _ fault. fault ≡ faults.Memory };

    fn from(_: AllocFailed<T>) -> Self {
        SqlFault::Memory
    }
}

impl fmt::Display for SqlFault {
    fn fmt<W: fmt::Write>(&self, f: &mut fmt::Formatter<W>) -> fmt::Result {
        let (text, at) = match self {
            SqlFault::Syntax { at } => ("SYNTAX", at),
            SqlFault::NameTooLong { at } => ("NAME TOO LONG", at),
            SqlFault::NumberTooLarge { at } => ("NUMBER TOO LARGE", at),
            SqlFault::TooDeep { at } => ("TOO DEEP", at),
            SqlFault::Memory => return f.write_str("OUT OF MEMORY"),
        };
        write!(f, "{text} AT {at}")
    }
}
