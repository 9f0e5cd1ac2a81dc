//! An engine is opened over a disk, and closed.

ghost use Rattle.std.specs.Prelude.{◌≡◌, ◌≤◌};
ghost use Rattle.mg_core.specs.Cores.{IsCore};
ghost use Rattle.mg_engine_meaning_laws.specs.Closings.{ClosesEngine};
ghost use Rattle.mg_engine_meaning_laws.specs.Openings.{OpensEngine};

use crate::engine::Engine;
use mg_base::Disk;
use mg_core::Core;
use mg_engine_meaning_laws::{closings_leave, openings_stand};
use mg_model::Refusal;
use mg_pool::CLEAN_PAGES;
use std::alloc::Global;

impl<D: Disk> Engine<D> {
    /// As `open_with`, with room for `CLEAN_PAGES` clean pages in memory.
    ///
    /// # Errors
    ///
    /// As `open_with`.
    pub fn open(alloc: Global, disk: D, limit: u32) -> Result<Engine<D>, (D, Refusal)>
        ensures { OpensEngine D.meaning disk limit result }
    {
        Engine::open_with(alloc, disk, limit, CLEAN_PAGES)
    }

    /// Opens a disk. On one on which a database may be made a new one is written first, its header last; any
    /// other is not written. Then page 0 and the transaction inventory pages are read, and the pages of the
    /// catalog are read and tested, as pages: no record is read.
    ///
    /// Where the disk holds a sound image and nothing is pending, the engine stands for the history that begins
    /// with that image and has no entry. Two things are asked of the image beside its soundness: its transactions
    /// in limbo have only made rows of the catalog, and its tables are plain (`BeginsWith`). Where a new one was made, the
    /// engine stands for the history of a new database that has no entry, if each page of the disk has the page size.
    ///
    /// The page limit is the greatest of `limit`, the disk's number of pages, and the seven of a new database; the disk
    /// never has more pages than that. Pages from 131,072 on are neither read nor written.
    ///
    /// At most `clean` clean pages are kept in memory.
    ///
    /// # Errors
    ///
    /// `NotADatabase` exactly where that field of page 0 is the first that differs, as of a file whose page 0
    /// alone is zero; `Damaged` at a field of page 0 or of a transaction inventory page, or at the first of the
    /// catalog's pages that is missing or not as wanted at its place, none of them of a sound image; `DiskRead`;
    /// `DiskWrite` only where a new database is written; `Memory`. The disk comes back.
    pub fn open_with(
        alloc: Global,
        disk: D,
        limit: u32,
        clean: u32,
    ) -> Result<Engine<D>, (D, Refusal)>
        requires { 1 ≤ clean }
        ensures { OpensEngine D.meaning disk limit result }
    {
        openings_stand::<D>();
        match Core::open(alloc, disk, limit, clean) {
            Ok(core) => Ok(Engine::new(core)),
            Err((disk, refusal)) => Err((disk, refusal)),
        }
    }

    /// Closes a database: every dirty page is written, each after those that must precede it, and the disk is
    /// settled. It takes no memory, and the disk comes back. What the history has with every durable event is then
    /// on it; who is active is rolled back.
    ///
    /// # Errors
    ///
    /// `Offline` exactly where a page write had failed before, and then nothing is written; `DiskWrite` only where
    /// the disk's count of faults rose in this call.
    pub fn close(self) -> (D, Result<(), Refusal>)
        ensures closes { ClosesEngine D.meaning self result.0 result.1 }
        ensures lawful { IsCore D.meaning self }
    {
        closings_leave::<D>();
        let Engine { core } = self;
        core.close()
    }

    /// Leaves a database as a power cut would: the disk comes back as it is, nothing is written, and what is in
    /// memory goes. So ends a run that a fault has stopped.
    pub fn into_disk(self) -> D
        ensures disk { result ≡ self.store.disk }
        ensures lawful { IsCore D.meaning self }
    {
        let Engine { core } = self;
        core.into_disk()
    }
}
