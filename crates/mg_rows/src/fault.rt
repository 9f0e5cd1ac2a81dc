//! Why a row can't be made.

ghost use Rattle.std.specs.Prelude.{◌≡◌};
ghost use Rattle.mg_rows.specs.declared.fault.NewRowFault.TheVariants as faults;

use mg_base::Memory;
use mg_expr::EvalFault;
use std::alloc::{AllocError, AllocFailed};
use std::fmt;

/// Why a row can't be made, in the order of the tests. `Display` gives the printed text.
#[derive(Clone, Copy, Debug, PartialEq, Eq)]
pub enum NewRowFault {
    /// A result that is evaluated leaves 64 bits, or a divisor is 0.
    Arithmetic,
    /// A column that may not be NULL would be.
    NullNotAllowed,
    /// A text would be longer than its column. Both numbers are in bytes.
    TextTooLong { len: u32, most: u32 },
    Memory,
}

impl From<Memory> for NewRowFault {
    ghost from_gives = { λ _ fault. fault ≡ faults.Memory };

    fn from(_: Memory) -> Self {
        NewRowFault::Memory
    }
}

impl From<AllocError> for NewRowFault {
    ghost from_gives = { λ _ fault. fault ≡ faults.Memory };

    fn from(_: AllocError) -> Self {
        NewRowFault::Memory
    }
}

impl<T: Drop> From<AllocFailed<T>> for NewRowFault {
    ghost from_gives = { λ _ fault. fault ≡ faults.Memory };

    fn from(_: AllocFailed<T>) -> Self {
        NewRowFault::Memory
    }
}

impl From<EvalFault> for NewRowFault {
    ghost use Rattle.mg_rows.specs.Faults.{of_value};

    ghost from_gives = { λ lower fault. fault ≡ of_value lower };

    fn from(lower: EvalFault) -> Self {
        match lower {
            EvalFault::Arithmetic => NewRowFault::Arithmetic,
            EvalFault::Memory => NewRowFault::Memory,
        }
    }
}

impl NewRowFault {
    /// What is printed of it in front of its numbers.
    fn text(&self) -> &'static str {
        match self {
            NewRowFault::Arithmetic => "ARITHMETIC",
            NewRowFault::NullNotAllowed => "NULL NOT ALLOWED",
            NewRowFault::TextTooLong { .. } => "TEXT TOO LONG",
            NewRowFault::Memory => "OUT OF MEMORY",
        }
    }
}

impl fmt::Display for NewRowFault {
    fn fmt<W: fmt::Write>(&self, f: &mut fmt::Formatter<W>) -> fmt::Result {
        f.write_str(self.text())?;
        if let NewRowFault::TextTooLong { len, most } = self {
            write!(f, " {len} LIMIT {most}")?;
        }
        Ok(())
    }
}
