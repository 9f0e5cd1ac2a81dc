//! What an engine has.

use mg_base::{Disk, Markers, TxNo, TxState};
use mg_directory::Directories;
use mg_model::Table;
use mg_snap::Live;
use mg_space::Store;
use mg_txlist::TxList;
use mg_waits::Waits;
use mg_works::Works;

/// What an engine has: the pages with their cache, and its memory of transactions.
#[derive(Drop)]
pub struct Core<D> {
    pub store: Store<D>,
    /// What has become of each transaction.
    pub list: TxList,
    /// Those that have not ended, with their bases.
    pub live: Live,
    /// Who waits for whom.
    pub waits: Waits,
    /// The active ones.
    pub works: Works,
    /// The records of tables by the bytes of their keys, as far as they are noted.
    pub directories: Directories,
    /// The table of the catalog, which stands where the header says.
    pub catalog: Table,
    /// Those of the header when the database was opened.
    pub markers: Markers,
    /// How often a page was found damaged.
    pub damage: u64,
    /// How often pages were short.
    pub shortages: u64,
}

impl<D: Disk> Core<D> {
    ghost use Rattle.std.specs.Prelude.{◌≡◌};
    ghost use Rattle.mg_txlist.specs.TxList.{next_said, said};
    ghost use Rattle.mg_core.specs.Cores.{IsCore};

    /// What has become of a transaction.
    pub fn state(&self, t: TxNo) -> TxState
        requires { IsCore D.meaning self.now }
        ensures { result ≡ said self.now.list t.0 }
    {
        self.list.state(t)
    }

    /// The oldest interesting, oldest active and oldest snapshot transaction as the header has them, which
    /// only a sweep moves, and the number that is drawn next.
    pub fn markers(&self) -> Markers
        requires { IsCore D.meaning self.now }
        ensures { result ≡ record self.now.markers { next = record { 0 = next_said self.now.list } } }
    {
        Markers {
            next: self.list.next(),
            ..self.markers
        }
    }

    /// The size of a page, in bytes.
    pub fn page_size(&self) -> u32
        ensures { result ≡ self.now.store.geometry.size }
    {
        self.store.geometry().size
    }

    /// The disk, with what was written to it.
    pub fn into_disk(self) -> D
        ensures { result ≡ self.store.disk }
    {
        let Core { store, .. } = self;
        store.into_disk()
    }
}
