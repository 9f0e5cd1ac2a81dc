//! Why a stored row could not be decoded.

ghost use Rattle.std.specs.Prelude.{◌≡◌};
ghost use Rattle.mg_rowcode.specs.declared.fault.RowFault.TheVariants as faults;

use mg_base::Memory;
use mg_rle::RunFault;
use std::alloc::{AllocError, AllocFailed};
use std::fmt;

/// Why a stored row could not be decoded.
#[derive(Clone, Copy, Debug, PartialEq, Eq)]
pub enum RowFault {
    /// It is no packed text: the first run that breaks the rule begins at this byte of it.
    BadRun { at: u32 },
    /// Unpacked it is no row: so many of the unpacked bytes begin some row of the shape and the
    /// format, and no more.
    BadRow { at: u32 },
    Memory,
}

impl From<AllocError> for RowFault {
    ghost from_gives = { λ _ fault. fault ≡ faults.Memory };

    fn from(_: AllocError) -> Self {
        RowFault::Memory
    }
}

impl<T: Drop> From<AllocFailed<T>> for RowFault {
    ghost from_gives = { λ _ fault. fault ≡ faults.Memory };

    fn from(_: AllocFailed<T>) -> Self {
        RowFault::Memory
    }
}

impl From<Memory> for RowFault {
    ghost from_gives = { λ _ fault. fault ≡ faults.Memory };

    fn from(_: Memory) -> Self {
        RowFault::Memory
    }
}

impl fmt::Display for RowFault {
    fn fmt<W: fmt::Write>(&self, f: &mut fmt::Formatter<W>) -> fmt::Result {
        match self {
            RowFault::BadRun { at } => write!(f, "BAD RUN AT {at}"),
            RowFault::BadRow { at } => write!(f, "BAD ROW AT {at}"),
            RowFault::Memory => f.write_str("OUT OF MEMORY"),
        }
    }
}
