//! Why a packed text could not be unpacked.

ghost use Rattle.std.specs.Prelude.{◌≡◌};
ghost use Rattle.mg_rle.specs.declared.fault.RunFault.TheVariants as faults;

use std::alloc::{AllocError, AllocFailed};
use std::fmt;

/// Why a packed text could not be unpacked.
#[derive(Clone, Copy, Debug, PartialEq, Eq)]
pub enum RunFault {
    /// The first run that breaks the rule begins at this byte of the packed text.
    BadRun { at: u32 },
    Memory,
}

impl From<AllocError> for RunFault {
    ghost from_gives = { λ _ fault. fault ≡ faults.Memory };

    fn from(_: AllocError) -> Self {
        RunFault::Memory
    }
}

impl<T: Drop> From<AllocFailed<T>> for RunFault {
    ghost from_gives = { λ _ fault. fault ≡ faults.Memory };

    fn from(_: AllocFailed<T>) -> Self {
        RunFault::Memory
    }
}

impl fmt::Display for RunFault {
    fn fmt<W: fmt::Write>(&self, f: &mut fmt::Formatter<W>) -> fmt::Result {
        match self {
            RunFault::BadRun { at } => write!(f, "BAD RUN AT {at}"),
            RunFault::Memory => f.write_str("OUT OF MEMORY"),
        }
    }
}
