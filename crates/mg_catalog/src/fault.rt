//! Why the rows of a catalog name no tables.

ghost use Rattle.std.specs.Prelude.{◌≡◌};
ghost use Rattle.mg_catalog.specs.declared.fault.CatFault.TheVariants as faults;

use mg_base::Memory;
use std::alloc::{AllocError, AllocFailed};
use std::fmt;

/// Why the rows of a catalog name no tables.
#[derive(Clone, Copy, Debug, PartialEq, Eq)]
pub enum CatFault {
    /// The row at this place of the list is not lawful among the others.
    BadTable { at: usize },
    Memory,
}

impl fmt::Display for CatFault {
    fn fmt<W: fmt::Write>(&self, f: &mut fmt::Formatter<W>) -> fmt::Result {
        match self {
            CatFault::BadTable { at } => write!(f, "BAD TABLE {at}"),
            CatFault::Memory => f.write_str("OUT OF MEMORY"),
        }
    }
}

impl From<Memory> for CatFault {
    ghost from_gives = { λ _ fault. fault ≡ faults.Memory };

    fn from(_: Memory) -> CatFault {
        CatFault::Memory
    }
}

impl From<AllocError> for CatFault {
    ghost from_gives = { λ _ fault. fault ≡ faults.Memory };

    fn from(_: AllocError) -> CatFault {
        CatFault::Memory
    }
}

impl<T: Drop> From<AllocFailed<T>> for CatFault {
    ghost from_gives = { λ _ fault. fault ≡ faults.Memory };

    fn from(_: AllocFailed<T>) -> CatFault {
        CatFault::Memory
    }
}
