//! Why a value could not be made.

ghost use Rattle.std.specs.Prelude.{◌≡◌};
ghost use Rattle.mg_value.specs.declared.fault.ValueFault.TheVariants as faults;

use std::alloc::{AllocError, AllocFailed};
use std::fmt;

/// Why a value could not be made.
#[derive(Clone, Copy, Debug, PartialEq, Eq)]
pub enum ValueFault {
    /// The text has this many bytes, more than its column takes.
    TextTooLong { len: u32 },
    Memory,
}

impl From<AllocError> for ValueFault {
    ghost from_gives = { λ _ fault. fault ≡ faults.Memory };

    fn from(_: AllocError) -> Self {
        ValueFault::Memory
    }
}

impl<T: Drop> From<AllocFailed<T>> for ValueFault {
    ghost from_gives = { λ _ fault. fault ≡ faults.Memory };

    fn from(_: AllocFailed<T>) -> Self {
        ValueFault::Memory
    }
}

impl fmt::Display for ValueFault {
    fn fmt<W: fmt::Write>(&self, f: &mut fmt::Formatter<W>) -> fmt::Result {
        match self {
            ValueFault::TextTooLong { len } => write!(f, "TEXT TOO LONG {len}"),
            ValueFault::Memory => write!(f, "OUT OF MEMORY"),
        }
    }
}
