//! The cache of pages over a disk.

ghost use Rattle.std.specs.Option.{option_copied};
ghost use Rattle.std.specs.Bool.{OnTrue};
ghost use Rattle.std.specs.Prelude.{◌≡◌, ◌≢◌, ◌⊎◌, ◌<◌, ◌≤◌, ◌+◌, ◌-◌, ◌^◌, min, Err, None, [], ℕ, length, unwrap_or, IfOk, IfSome, IsSome, true, false, Some, OnOk, OnErr, IfErr};
ghost use Rattle.mg_base.specs.Image.{Image, page_at};
ghost use Rattle.mg_base.specs.Disk.{MayLeave, Calm, ReadsPage, FailsNoWrite};
ghost use Rattle.mg_careful.specs.Graph.{IsFirstReady};
ghost use Rattle.mg_pool.specs.Dirty.{is_dirty as dirty_test, is_marked, IsLeastPage, MarksAll};
ghost use Rattle.mg_pool.specs.Fault.{TellsFault, OnlyWrites, OnlyRefuses};
ghost use Rattle.mg_pool.specs.Refusal.{LeavesRefused};
ghost use Rattle.mg_pool.specs.Reading.{Fetches};
ghost use Rattle.mg_pool.specs.Rooms.{HasRoom, NotesRoom, noted_in};
ghost use Rattle.mg_pool.specs.Run.{HasWritten, WritesPage};
ghost use Rattle.mg_slots.specs.Room.{room_of};
ghost use Rattle.mg_pool.specs.Pool.{HasAtMost, IsPool, IsOnDisk, resident, KeepsContent, KeepsPages, number_of, shown, LeavesOverlays};

use crate::clean::CleanTable;
use crate::dirty::DirtyTable;
use crate::dirty_page::MARKERS;
use crate::fault::PoolFault;
use crate::rooms::Rooms;
use crate::tested::Tested;
use mg_base::{Bytes, Disk, DiskFault, GREATEST_LIMIT, Geometry, PageNo};
use mg_careful::{Graph, Links};
use std::alloc::Global;
use std::marker::PhantomData;
use std::num::NonZeroUsize;

/// The cache of pages over a disk.
#[derive(Drop)]
pub struct Pool<D, L: Links> {
    disk: D,
    geometry: Geometry,
    dirty: DirtyTable<L>,
    graph: Graph,
    clean: CleanTable<L>,
    counted: bool,
    rooms: Rooms,
    alloc: Global,
    faults: u64,
    offline: Option<u64>,
    links: PhantomData<L>,
}

/// How many pages may be dirty at a time.
pub const DIRTY_PAGES: u32 = 512;

/// How many clean pages a pool keeps that was made by `Pool::new`.
pub const CLEAN_PAGES: u32 = 1024;

mod change;
mod change_one;
pub(crate) mod orders;
mod write;

impl<D: Disk, L: Links> Pool<D, L> {
    /// As `with_cache`, with room for `CLEAN_PAGES` clean pages.
    ///
    /// # Errors
    ///
    /// `Memory` only. The disk comes back.
    pub fn new(alloc: Global, disk: D, geometry: Geometry) -> Result<Pool<D, L>, (D, PoolFault)>
        requires size { D.meaning.size disk ≡ Some geometry.size }
        requires within { HasAtMost D.meaning disk geometry.limit }
        ensures pool { IfOk result (λ pool. IsPool D.meaning pool) }
        ensures disk { IfOk result (λ pool. pool.disk ≡ disk) }
        ensures geometry { IfOk result (λ pool. pool.geometry ≡ geometry) }
        ensures dirty { IfOk result (λ pool. pool.dirty.pages ≡ []) }
        ensures room { IfOk result (λ pool. pool.clean.room ≡ 1024) }
        ensures online { IfOk result (λ pool. pool.offline ≡ None) }
        ensures err { IfErr result (λ both. (both.0 ≡ disk) × (both.1 ≡ PoolFault.Memory)) }
    {
        Pool::with_cache(alloc, disk, geometry, CLEAN_PAGES)
    }

    /// A pool over a disk, without a dirty page, that keeps at most `clean` clean pages. It takes
    /// the room for all dirty pages here, and two bytes for each page that the file may have.
    ///
    /// The size of `geometry` is the one that the disk's `page_size` gave, and its limit is no less
    /// than the number of pages that the disk's `pages` gave. No page past the limit is ever written.
    ///
    /// # Errors
    ///
    /// `Memory` only. The disk comes back.
    pub fn with_cache(
        alloc: Global,
        disk: D,
        geometry: Geometry,
        clean: u32,
    ) -> Result<Pool<D, L>, (D, PoolFault)>
        requires size { D.meaning.size disk ≡ Some geometry.size }
        requires within { HasAtMost D.meaning disk geometry.limit }
        requires some { 1 ≤ clean }
        ensures pool { IfOk result (λ pool. IsPool D.meaning pool) }
        ensures disk { IfOk result (λ pool. pool.disk ≡ disk) }
        ensures geometry { IfOk result (λ pool. pool.geometry ≡ geometry) }
        ensures dirty { IfOk result (λ pool. pool.dirty.pages ≡ []) }
        ensures room { IfOk result (λ pool. pool.clean.room ≡ clean) }
        ensures online { IfOk result (λ pool. pool.offline ≡ None) }
        ensures err { IfErr result (λ both. (both.0 ≡ disk) × (both.1 ≡ PoolFault.Memory)) }
    {
        let dirty = match DirtyTable::new(alloc, geometry.size as usize, DIRTY_PAGES as usize) {
            Ok(dirty) => dirty,
            Err(_) => return Err((disk, PoolFault::Memory)),
        };
        let graph = match Graph::new(alloc, DIRTY_PAGES) {
            Ok(graph) => graph,
            Err(_) => return Err((disk, PoolFault::Memory)),
        };
        let room = NonZeroUsize::new(clean as usize).unwrap();
        let clean = match CleanTable::new(alloc, room) {
            Ok(clean) => clean,
            Err(_) => return Err((disk, PoolFault::Memory)),
        };
        let rooms = match Rooms::new(alloc, geometry.limit.min(GREATEST_LIMIT) as usize) {
            Ok(rooms) => rooms,
            Err(_) => return Err((disk, PoolFault::Memory)),
        };
        Ok(Pool {
            disk,
            geometry,
            dirty,
            graph,
            clean,
            counted: false,
            rooms,
            alloc,
            faults: 0,
            offline: None,
            links: PhantomData,
        })
    }

    /// The geometry that the pool was made with.
    pub fn geometry(&self) -> Geometry
        ensures { result ≡ self.now.geometry }
    {
        self.geometry
    }

    /// The allocator that the pool was made with.
    pub fn alloc(&self) -> Global
        ensures { result ≡ self.now.alloc }
    {
        self.alloc
    }

    /// The disk, with what was written to it.
    pub fn into_disk(self) -> D
        ensures { result ≡ self.disk }
    {
        let Pool { disk, .. } = self;
        disk
    }

    /// Tells whether a page is dirty: changed since it was last written.
    pub fn is_dirty(&self, page: PageNo) -> bool
        ensures { result ≡ dirty_test self.now.dirty page.0 }
    {
        self.dirty.content(page.0).is_some()
    }

    /// The dirty page of least number, none where no page is dirty.
    pub fn least_dirty(&self) -> Option<PageNo>
        ensures { IsLeastPage (dirty_test self.now.dirty) (number_of result) }
    {
        match self.dirty.least() {
            Some(page) => Some(PageNo(page)),
            None => None,
        }
    }

    /// Gives every dirty page the mark of `who`, and takes it from every other page. It takes no
    /// memory.
    pub fn mark(&mut self, who: u8)
        requires pool { IsPool D.meaning self.old }
        requires who { who < MARKERS }
        ensures pool { IsPool D.meaning self.new }
        ensures marks { MarksAll self.old.dirty self.new.dirty who }
        ensures same { self.new ≡ record self.old { dirty = self.new.dirty } }
    {
        self.dirty.mark(who as usize);
    }

    /// The page of least number that `who` has marked and that wasn't written since, none where
    /// there is none.
    pub fn least_marked(&self, who: u8) -> Option<PageNo>
        requires { who < MARKERS }
        ensures { IsLeastPage (λ page. is_marked self.now.dirty page who) (number_of result) }
    {
        match self.dirty.least_marked(who as usize) {
            Some(page) => Some(PageNo(page)),
            None => None,
        }
    }

    /// The content of a resident page. Every dirty page is resident. A clean page is used no later
    /// by this.
    pub fn bytes(&self, page: PageNo) -> Option<&[u8]>
        requires { IsPool D.meaning self.now }
        ensures resident { option_copied result ≡ resident self.now page.0 }
        ensures whole { IfSome result (λ b. length b.now ≡ self.now.geometry.size) }
        ensures last { D.meaning.tells self.now.disk ≡ true → (image : Image)
            → D.meaning.held self.now.disk ≡ Some image
            → IfSome result (λ b. b.now ≡ shown self.now.dirty image page.0) }
    {
        match self.look(page) {
            Some(tested) => Some(tested.as_slice()),
            None => None,
        }
    }

    /// The content of a resident page, as `bytes` gives it, with what is known of it: `passes` of
    /// the answer tells whether it passes the test of its kind. So who wants both looks once.
    pub fn look(&self, page: PageNo) -> Option<&Tested<L>>
        requires { IsPool D.meaning self.now }
        ensures resident { option_copied result ≡ resident self.now page.0 }
        ensures whole { IfSome result (λ b. length b.now ≡ self.now.geometry.size) }
        ensures last { D.meaning.tells self.now.disk ≡ true → (image : Image)
            → D.meaning.held self.now.disk ≡ Some image
            → IfSome result (λ b. b.now ≡ shown self.now.dirty image page.0) }
    {
        match self.clean.get(page.0) {
            Some(tested) => Some(tested),
            None => self.dirty.tested(page.0),
        }
    }

    /// Tells that a resident page passes the test of its kind, as the page that it says it is,
    /// without a look at its bytes. It may pass where the answer is no.
    pub fn passes(&self, page: PageNo) -> bool
        requires { IsPool D.meaning self.now }
        ensures { OnTrue result (IfSome (resident self.now page.0)
            (λ b. L.lawful_of page.0 b)) }
    {
        match self.look(page) {
            Some(tested) => tested.passes(page.0),
            None => false,
        }
    }

    /// How many bytes a new cell may take on a page: where it was noted, and the page has not been
    /// changed since. The page need not be resident.
    pub fn noted_room(&self, page: PageNo) -> Option<u32>
        requires { IsPool D.meaning self.now }
        ensures { D.meaning.tells self.now.disk ≡ true → (image : Image)
            → D.meaning.held self.now.disk ≡ Some image
            → IfSome result (λ room. room ≡ room_of (shown self.now.dirty image page.0)) }
    {
        self.rooms.get(page.0)
    }

    /// Notes how many bytes a new cell may take on a resident page, until the page is changed. Of a
    /// page past those that a database may have nothing is noted.
    pub fn note_room(&mut self, page: PageNo, room: u32)
        requires pool { IsPool D.meaning self.old }
        requires room { HasRoom (resident self.old page.0) room }
        ensures pool { IsPool D.meaning self.new }
        ensures noted { NotesRoom self.old.rooms self.new.rooms page.0 room }
        ensures same { self.new ≡ record self.old { rooms = self.new.rooms } }
    {
        self.rooms.note(page.0, room);
    }

    /// Writes one dirty page: of the goal and the pages that precede it, the one of least number that
    /// no page precedes. The answer is its number. The page stays as a clean one, where there is
    /// memory for it; it is written also where there is none.
    ///
    /// # Errors
    ///
    /// `Offline` exactly where an earlier call answered `DiskWrite`, and then all is as it was;
    /// `DiskWrite` only where the disk's count of failed page writes rose in this call. The pages, orders and
    /// marks are then as before.
    pub fn write_one(&mut self, goal: PageNo) -> Result<PageNo, PoolFault>
        requires pool { IsPool D.meaning self.old }
        requires dirty { dirty_test self.old.dirty goal.0 ≡ true }

        ensures pool { IsPool D.meaning self.new }
        ensures fault { TellsFault D.meaning self.old self.new result }
        ensures own { OnlyWrites result }
        ensures kept { KeepsPages D.meaning self.old self.new }
        ensures least { IfOk result (λ page. IsFirstReady self.old.graph goal.0 page.0) }
        ensures written { IfOk result (λ page. WritesPage D.meaning self.old self.new page.0) }
        ensures run { OnOk result (HasWritten D.meaning self.old self.new) }
        ensures refused { LeavesRefused D.meaning self.old self.new result }
        ensures same { OnErr result (self.new ≡ record self.old {
          disk = self.new.disk;
          faults = self.new.faults;
          offline = self.new.offline;
        }) }
        ensures crash { LeavesOverlays D.meaning self.old self.new }
    {
        self.online()?;
        let page = self.graph.first_ready(goal.0).unwrap();
        self.write_out(page)?;
        Ok(PageNo(page))
    }

    /// Makes what was written stay: after it a crash leaves what the disk holds, and nothing else.
    /// It writes no page, and leaves pages, orders and marks as they were.
    ///
    /// # Errors
    ///
    /// `Offline` exactly where an earlier call answered `DiskWrite`, and then all is as it was;
    /// `DiskWrite` only where the disk's count of failed page writes, which counts settling too, rose in this
    /// call.
    pub fn settle(&mut self) -> Result<(), PoolFault>
        requires pool { IsPool D.meaning self.old }

        ensures pool { IsPool D.meaning self.new }
        ensures same { self.new ≡ record self.old {
          disk = self.new.disk;
          faults = self.new.faults;
          offline = self.new.offline;
        } }
        ensures fault { TellsFault D.meaning self.old self.new result }
        ensures offline { (faults : ℕ) → result ≡ Err (PoolFault.Offline faults)
            → self.new ≡ self.old }
        ensures durable { OnOk result (D.meaning.tells self.old.disk ≡ true → (image : Image)
            → MayLeave D.meaning self.new.disk image → D.meaning.held self.new.disk ≡ Some image) }
        ensures own { OnlyWrites result }
        ensures disk { KeepsContent D.meaning self.old.disk self.new.disk }
    {
        self.online()?;
        match self.disk.settle() {
            Ok(()) => Ok(()),
            Err(_) => {
                let faults = count_fault(&mut self.faults);
                self.offline = Some(faults);
                Err(PoolFault::DiskWrite { faults })
            }
        }
    }

    /// Makes a page resident, as the one that was used last: `bytes` gives its content then. No
    /// dirty page leaves, and no clean page as long as there is room; else the clean page that was
    /// used least recently.
    ///
    /// # Errors
    ///
    /// `Offline` exactly where an earlier call answered `DiskWrite`; `DiskRead` only where the
    /// disk's count of faults rose in this call, and none of them was of a page write; `Absent` exactly where the page is neither dirty
    /// nor on the disk; `Memory`. The same pages are resident then, with the same contents.
    pub fn fetch(&mut self, page: PageNo) -> Result<(), PoolFault>
        requires pool { IsPool D.meaning self.old }

        ensures pool { IsPool D.meaning self.new }
        ensures geometry { self.new.geometry ≡ self.old.geometry }
        ensures dirty { self.new.dirty ≡ self.old.dirty }
        ensures graph { self.new.graph ≡ self.old.graph }
        ensures resident { OnOk result (IsSome (resident self.new page.0)) }
        ensures same { OnErr result ((p : ℕ) → resident self.new p ≡ resident self.old p) }
        ensures offline { (faults : ℕ) → result ≡ Err (PoolFault.Offline faults)
            → self.new ≡ self.old }
        ensures fault { TellsFault D.meaning self.old self.new result }
        ensures present { OnOk result ((dirty_test self.old.dirty page.0 ≡ true)
            ⊎ IsOnDisk D.meaning self.new.disk page.0) }
        ensures absent { (pages : ℕ) → result ≡ Err (PoolFault.Absent pages)
            → (dirty_test self.old.dirty page.0 ≡ false)
            × (D.meaning.count self.new.disk ≡ Some pages) × (pages ≤ page.0) }
        ensures never_written { (faults : ℕ) → result ≢ Err (PoolFault.DiskWrite faults) }
        ensures disk { KeepsContent D.meaning self.old.disk self.new.disk }
        ensures reads { Fetches D.meaning self.old self.new page.0 }
    {
        self.online()?;
        if self.bytes(page).is_some() {
            self.clean.touch(page.0);
            return Ok(());
        }
        let pages = match self.disk.pages() {
            Ok(pages) => pages,
            Err(_) => return Err(self.read_fault()),
        };
        if page.0 >= pages {
            return Err(PoolFault::Absent { pages });
        }
        let mut buffer = match vec![in self.alloc; 0u8; self.geometry.size as usize] {
            Ok(buffer) => buffer,
            Err(_) => return Err(PoolFault::Memory),
        };
        match read_into(&mut self.disk, page, &mut buffer) {
            Ok(()) => {}
            Err(_) => return Err(self.read_fault()),
        }
        match self
            .clean
            .put(page.0, Tested::new(page.0, Bytes::new(buffer)))
        {
            Ok(()) => {
                self.counted = true;
                Ok(())
            }
            Err(_) => Err(PoolFault::Memory),
        }
    }

    /// Counts a fault of the disk in a reading call.
    fn read_fault(&mut self) -> PoolFault
        ensures same { self.new ≡ record self.old { faults = self.new.faults } }
        ensures count { self.new.faults ≡ min (self.old.faults + 1) (2 ^ 64 - 1) }
        ensures fault { result ≡ PoolFault.DiskRead self.new.faults }
    {
        let faults = count_fault(&mut self.faults);
        PoolFault::DiskRead { faults }
    }

    /// Refuses every call after one that answered `DiskWrite`, as each call is that may answer a
    /// fault.
    ///
    /// # Errors
    ///
    /// `Offline` exactly where an earlier call answered `DiskWrite`, with the count of that fault.
    pub fn online(&self) -> Result<(), PoolFault>
        ensures fault { TellsFault D.meaning self.now self.now result }
        ensures refused { LeavesRefused D.meaning self.now self.now result }
        ensures refusal { OnlyRefuses result }
    {
        match self.offline {
            Some(faults) => Err(PoolFault::Offline { faults }),
            None => Ok(()),
        }
    }
}

/// Counts one fault more. The count stands still at the end of its type.
pub(crate) fn count_fault(faults: &mut u64) -> u64
    ensures count { faults.new ≡ min (faults.old + 1) (2 ^ 64 - 1) }
    ensures told { result ≡ faults.new }
{
    *faults = faults.saturating_add(1);
    *faults
}

/// Reads a page of the disk into a buffer of its size.
fn read_into<D: Disk>(disk: &mut D, page: PageNo, buffer: &mut Vec<u8>) -> Result<(), DiskFault>
    requires whole { D.meaning.size disk.old ≡ Some (length buffer.old.items) }
    requires below { page.0 < unwrap_or (D.meaning.count disk.old) 0 }
    ensures len { length buffer.new.items ≡ length buffer.old.items }
    ensures page { OnOk result ((image : Image) → D.meaning.held disk.old ≡ Some image
        → buffer.new.items ≡ page_at (length buffer.old.items) image page.0) }
    ensures calm { Calm D.meaning disk.old disk.new result }
    ensures reads { ReadsPage D.meaning disk.old disk.new page.0 }
    ensures no_failed_write { FailsNoWrite D.meaning disk.old disk.new }
{
    disk.read(page, buffer)
}
