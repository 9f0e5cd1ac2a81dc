//! What a call that reads, takes or changes pages can be refused for.

ghost use Rattle.std.specs.Prelude.{◌≡◌};
ghost use Rattle.mg_space.specs.declared.fault.SpaceFault.TheVariants as faults;
ghost use Rattle.mg_pool.specs.declared.fault.PoolFault.TheVariants.{Memory as OutOfMemory};

use mg_base::{Damaged, Memory};
use mg_pool::PoolFault;
use std::alloc::{AllocError, AllocFailed};
use std::fmt;

/// The fault of every call that works on the pages of a database.
#[derive(Clone, Copy, Debug, PartialEq, Eq)]
pub enum SpaceFault {
    /// No page below the limit is free.
    Full { limit: u32 },
    /// The cache's, but for a page that is absent: that is damage.
    Pool(PoolFault),
    /// A page that was read differs from what is wanted of it.
    Damaged(Damaged),
}

impl fmt::Display for SpaceFault {
    fn fmt<W: fmt::Write>(&self, f: &mut fmt::Formatter<W>) -> fmt::Result {
        match self {
            SpaceFault::Full { limit } => write!(f, "DATABASE FULL LIMIT {limit}"),
            SpaceFault::Pool(fault) => {
                let word = word_of(*fault);
                write!(f, "{word}")
            }
            SpaceFault::Damaged(damage) => write!(f, "{damage}"),
        }
    }
}

/// The printed text of a fault of the cache.
fn word_of(fault: PoolFault) -> &'static str {
    match fault {
        PoolFault::DiskRead { .. } => "DISK READ FAULT",
        PoolFault::DiskWrite { .. } => "DISK WRITE FAULT",
        PoolFault::Offline { .. } => "OFFLINE",
        PoolFault::Absent { .. } => "PAGE ABSENT",
        PoolFault::Memory => "OUT OF MEMORY",
    }
}

impl From<PoolFault> for SpaceFault {
    ghost from_gives = { λ fault given. given ≡ faults.Pool fault };

    fn from(fault: PoolFault) -> SpaceFault {
        SpaceFault::Pool(fault)
    }
}

impl From<Damaged> for SpaceFault {
    ghost from_gives = { λ damage given. given ≡ faults.Damaged damage };

    fn from(damage: Damaged) -> SpaceFault {
        SpaceFault::Damaged(damage)
    }
}

impl From<Memory> for SpaceFault {
    ghost from_gives = { λ _ given. given ≡ faults.Pool OutOfMemory };

    fn from(_: Memory) -> SpaceFault {
        SpaceFault::Pool(PoolFault::Memory)
    }
}

impl From<AllocError> for SpaceFault {
    ghost from_gives = { λ _ given. given ≡ faults.Pool OutOfMemory };

    fn from(_: AllocError) -> SpaceFault {
        SpaceFault::Pool(PoolFault::Memory)
    }
}

impl<T: Drop> From<AllocFailed<T>> for SpaceFault {
    ghost from_gives = { λ _ given. given ≡ faults.Pool OutOfMemory };

    fn from(_: AllocFailed<T>) -> SpaceFault {
        SpaceFault::Pool(PoolFault::Memory)
    }
}
