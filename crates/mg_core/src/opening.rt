//! The opening of a disk, and the closing of a database.

ghost use Rattle.std.specs.Prelude.{◌≤◌};
ghost use Rattle.mg_pool.specs.Fault.{OnlyWrites};
ghost use Rattle.mg_core.specs.Cores.{IsCore};
ghost use Rattle.mg_core.specs.Opening.{ClosesDisk, IsAnswer, IsOpenRefusal, OpensDisk};

use crate::parts::Core;
use crate::refusing::{refusal_of, write_refusal};
use mg_base::Disk;
use mg_database::{OpenFault, finish, load, prepare};
use mg_directory::{Directories, MOST_NOTED};
use mg_model::Refusal;
use mg_pool::PoolFault;
use mg_waits::Waits;
use mg_works::Works;
use std::alloc::Global;

impl<D: Disk> Core<D> {
    /// Opens a disk. On one on which a database may be made a new one is written first, its header last; any
    /// other is not written. Then page 0 and the transaction inventory pages are read, and the pages of the
    /// catalog are read and tested, as pages. Its rows are read when a table is asked for.
    ///
    /// The page limit is the greatest of `limit`, the disk's number of pages, and the seven of a new database;
    /// the disk never has more pages than that. Pages from 131,072 on are neither read nor written. At most
    /// `clean` clean pages are kept in memory.
    ///
    /// # Errors
    ///
    /// `DiskRead`; `DiskWrite` only where a new database is written; `NotADatabase` exactly where that field
    /// of page 0 is the first that differs, as of a file whose page 0 alone is zero; `Damaged` at a field of
    /// page 0 or of a transaction inventory page, or else at the first of the catalog's pages that is missing
    /// or not as wanted at its place; `Memory`. The disk comes back.
    pub fn open(alloc: Global, disk: D, limit: u32, clean: u32) -> Result<Core<D>, (D, Refusal)>
        requires { 1 ≤ clean }
        ensures { OpensDisk D.meaning disk limit result }
    {
        let mut store = match prepare(alloc, disk, limit, clean) {
            Ok(store) => store,
            Err((disk, fault)) => return Err((disk, open_refusal(fault, limit))),
        };
        match load(&mut store) {
            Ok(loaded) => Ok(Core {
                store,
                list: loaded.list,
                live: loaded.live,
                waits: Waits::new(alloc),
                works: Works::new(alloc),
                directories: Directories::new(alloc, MOST_NOTED),
                catalog: loaded.catalog,
                markers: loaded.markers,
                damage: 0,
                shortages: 0,
            }),
            Err(fault) => Err((store.into_disk(), open_refusal(fault, limit))),
        }
    }

    /// Closes a database: every dirty page is written, each after those that must precede it, and the disk
    /// is settled. It takes no memory, and the disk comes back.
    ///
    /// Who is active then is rolled back: what is in memory goes, and bits of a transaction that say active
    /// count as dead when the file is opened again.
    ///
    /// # Errors
    ///
    /// `Offline` exactly where a page write had failed before, and then nothing is written; `DiskWrite` only
    /// where the disk's count of faults rose in this call.
    pub fn close(self) -> (D, Result<(), Refusal>)
        requires { IsCore D.meaning self }
        ensures { ClosesDisk D.meaning self.store result.0 result.1 }
    {
        let Core { store, .. } = self;
        let mut store = store;
        let ended = finish(&mut store);
        (store.into_disk(), answer_of(ended))
    }
}

/// The refusal that a fault of an opening is, for which a page limit was asked.
fn open_refusal(fault: OpenFault, limit: u32) -> Refusal
    ensures { IsOpenRefusal fault result }
{
    match fault {
        OpenFault::NotADatabase { field, found } => Refusal::NotADatabase { field, found },
        OpenFault::Space(fault) => refusal_of(fault, limit),
    }
}

/// The answer of a call that reads nothing and takes no memory.
fn answer_of(ended: Result<(), PoolFault>) -> Result<(), Refusal>
    requires { OnlyWrites ended }
    ensures { IsAnswer ended result }
{
    match ended {
        Ok(()) => Ok(()),
        Err(fault) => Err(write_refusal(fault)),
    }
}
