//! Faults as refusals.

ghost use Rattle.std.specs.Prelude.{◌≡◌, Err};
ghost use Rattle.mg_pool.specs.Fault.{OnlyRefuses, OnlyWrites};
ghost use Rattle.mg_txlist.specs.Ending.{OnlyWritesSpace};
ghost use Rattle.mg_core.specs.Refusing.{CountsFault, IsRefusal, IsRefusalOf, NamesLimit};

use crate::parts::Core;
use mg_base::{Disk, Field, PageNo};
use mg_model::Refusal;
use mg_pool::PoolFault;
use mg_space::SpaceFault;

/// The refusal that a fault of a call is that reads no page and takes no memory.
pub fn write_refusal(fault: PoolFault) -> Refusal
    requires { OnlyWrites {T = Unit {0}} (Err fault) }
    ensures { IsRefusalOf fault result }
{
    match fault {
        PoolFault::DiskWrite { faults } => Refusal::DiskWrite { faults },
        PoolFault::Offline { faults } => Refusal::Offline { faults },
        _ => unreachable!(),
    }
}

/// The refusal that an earlier fault is.
pub fn offline_refusal(fault: PoolFault) -> Refusal
    requires { OnlyRefuses {T = Unit {0}} (Err fault) }
    ensures { IsRefusalOf fault result }
{
    match fault {
        PoolFault::Offline { faults } => Refusal::Offline { faults },
        _ => unreachable!(),
    }
}

/// The refusal that a fault is with which the bits of a transaction were not set.
pub fn bits_refusal(fault: SpaceFault) -> Refusal
    requires { OnlyWritesSpace {T = Unit {0}} (Err fault) }
    ensures { IsRefusal fault result }
{
    match fault {
        SpaceFault::Pool(fault) => write_refusal(fault),
        _ => unreachable!(),
    }
}

/// The refusal that a fault of a call on the pages is, in a database with a page limit: want of pages names it.
pub fn refusal_of(fault: SpaceFault, limit: u32) -> Refusal
    ensures refusal { IsRefusal fault result }
    ensures names { NamesLimit limit result }
{
    match fault {
        SpaceFault::Full { .. } => Refusal::DatabaseFull { limit },
        SpaceFault::Damaged(damage) => Refusal::Damaged {
            page: damage.page,
            field: damage.field,
            found: damage.found,
            wanted: damage.wanted,
        },
        SpaceFault::Pool(PoolFault::DiskRead { faults }) => Refusal::DiskRead { faults },
        SpaceFault::Pool(PoolFault::DiskWrite { faults }) => Refusal::DiskWrite { faults },
        SpaceFault::Pool(PoolFault::Offline { faults }) => Refusal::Offline { faults },
        SpaceFault::Pool(PoolFault::Memory) => Refusal::Memory,
        SpaceFault::Pool(PoolFault::Absent { pages }) => Refusal::Damaged {
            page: PageNo(0),
            field: Field::Presence,
            found: u64::from(pages),
            wanted: u64::from(pages),
        },
    }
}

impl<D: Disk> Core<D> {
    /// The refusal that a fault of a call on the pages is. Damage is counted, and so is want of pages, which names the
    /// store's page limit.
    pub fn refuse(&mut self, fault: SpaceFault) -> Refusal
        ensures refusal { IsRefusal fault result }
        ensures names { NamesLimit self.new.store.geometry.limit result }
        ensures counts { CountsFault fault self.old.damage self.new.damage self.old.shortages self.new.shortages }
        ensures same { self.new ≡ record self.old { damage = self.new.damage; shortages = self.new.shortages } }
    {
        match fault {
            SpaceFault::Full { .. } => {
                self.shortages = self.shortages.saturating_add(1);
            }
            SpaceFault::Damaged(_) => self.damage = self.damage.saturating_add(1),
            SpaceFault::Pool(PoolFault::Absent { .. }) => {
                self.damage = self.damage.saturating_add(1);
            }
            SpaceFault::Pool(_) => {}
        }
        let limit = self.store.geometry().limit;
        refusal_of(fault, limit)
    }
}
