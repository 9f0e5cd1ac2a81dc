//! A disk in memory that keeps every page write, for tests and for what a crash may leave.

ghost use Rattle.std.specs.Prelude.{◌≡◌, length};
ghost use Rattle.mg_base.specs.Kept.{IsKept};

use crate::obeyed::{Obeyed, blank_flags, blank_pages, blank_record, put_obeyed, put_page};
use crate::{Bytes, Disk, DiskFault, Memory, PageNo};
use std::alloc::Global;

/// A disk in memory. It takes all its memory in `new`: a number of pages, its room, and a record of
/// page writes, in which each write that it obeys is kept. It counts what it is asked for.
#[derive(Drop)]
pub struct MemDisk {
    size: u32,
    pages: Vec<Bytes>,
    used: u32,
    obeyed: Vec<Obeyed>,
    writes: usize,
    // Whether the disk was settled since the last page write.
    settled: bool,
    faults: u64,
    // How many page writes and page reads it was asked for, and which pages were read.
    asked: u64,
    reads: u64,
    were_read: Vec<bool>,
    ghost kept: { IsKept size pages.items used obeyed.items writes settled },
    ghost flags: { length were_read.items ≡ length pages.items },
}

impl MemDisk {
    ghost use Rattle.std.specs.Prelude.{◌≤◌, ◌<◌, ◌+◌, ◌^◌, IfOk, [], Some, true, take};
    ghost use Rattle.mg_base.specs.Disk.{IsUnasked};
    ghost use Rattle.mg_base.specs.Acts.{image_of, acts_of};
    ghost use Rattle.mg_base.specs.MemDisk.{mem_meaning, acts_in, room_of, record_of, writes_of, Obeys, SameCounts};
    ghost use Rattle.mg_base.specs.Geometry.{is_page_size};

    /// A disk without pages, with room for `room` of them and for a record of `writes` page writes.
    /// `size` is one of the five page sizes.
    ///
    /// # Errors
    ///
    /// `Memory` only.
    pub fn new(alloc: Global, size: u32, room: u32, writes: u32) -> Result<MemDisk, Memory>
        requires { is_page_size size ≡ true }
        ensures size { IfOk result (λ d. mem_meaning.size d ≡ Some size) }
        ensures acts { IfOk result (λ d. acts_in d ≡ []) }
        ensures writes { IfOk result (λ d. writes_of d ≡ []) }
        ensures faults { IfOk result (λ d. mem_meaning.faults d ≡ 0) }
        ensures unasked { IfOk result (λ d. IsUnasked mem_meaning d) }
        ensures room { IfOk result (λ d. room_of d ≡ room) }
        ensures entries { IfOk result (λ d. record_of d ≡ writes) }
    {
        let pages = blank_pages(alloc, size, room)?;
        let obeyed = blank_record(alloc, size, writes)?;
        let were_read = blank_flags(alloc, room)?;
        Ok(MemDisk {
            size,
            pages,
            used: 0,
            obeyed,
            writes: 0,
            settled: false,
            faults: 0,
            asked: 0,
            reads: 0,
            were_read,
        })
    }

    /// The number of page writes that it obeyed.
    pub fn writes(&self) -> usize
        ensures { result ≡ length (writes_of self.now) }
    {
        self.writes
    }

    /// A disk that holds the image after the first `count` page writes of this one, as a machine finds
    /// it after it stopped there. Nothing is pending, and nothing was asked yet. It has the same room, and its record has room
    /// for `writes` page writes more.
    ///
    /// # Errors
    ///
    /// `Memory` only.
    pub fn after(&self, alloc: Global, count: u32, writes: u32) -> Result<MemDisk, Memory>
        requires count { count ≤ length (writes_of self.now) }
        requires writes { count + writes < 2 ^ 32 }
        ensures held { IfOk result (λ d. mem_meaning.held d
            ≡ Some (image_of self.now.size (acts_of (take count (writes_of self.now)) true))) }
        ensures settled { IfOk result (λ d. d.settled ≡ true) }
        ensures unasked { IfOk result (λ d. IsUnasked mem_meaning d) }
        ensures room { IfOk result (λ d. room_of d ≡ room_of self.now) }
        ensures entries { IfOk result (λ d. record_of d ≡ count + writes) }
    {
        let mut disk = MemDisk::new(alloc, self.size, self.pages.len() as u32, count + writes)?;
        for at in 0..count as usize {
            let entry = &self.obeyed[at];
            disk.obey(entry.page, entry.bytes.as_slice());
        }
        disk.settled = true;
        Ok(disk)
    }

    // Writes a page and keeps the write in the record.
    fn obey(&mut self, page: u32, bytes: &[u8])
        requires whole { length bytes.now ≡ self.old.size }
        requires room { page < room_of self.old }
        requires entries { length (writes_of self.old) < record_of self.old }
        ensures obeys { Obeys self.old self.new page bytes.now }
        ensures counts { SameCounts self.old self.new }
    {
        put_obeyed(&mut self.obeyed, self.writes, page, self.settled, bytes);
        put_page(&mut self.pages, page as usize, bytes);
        self.writes += 1;
        self.used = self.used.max(page + 1);
        self.settled = false;
    }
}

impl Disk for MemDisk {
    ghost use Rattle.std.specs.Prelude.{◌↔◌, ◌<◌, ℕ, true, Some, ◌∷◌, IsErr, IsOk, IfOk, OnErr, OnOk, unwrap_or};
    ghost use Rattle.mg_base.specs.Acts.{Write, acts_of};
    ghost use Rattle.mg_base.specs.Disk.{Calm, Counts, CountsRead, KeepsReads, ReadsPage, Writes, MayLeave, FailsNoWrite, CountsFailedWrite};
    ghost use Rattle.mg_base.specs.Geometry.{is_page_size};
    ghost use Rattle.mg_base.specs.Image.{Image, page_at};
    ghost use Rattle.mg_base.specs.MemDisk.{acts_in, writes_of, mem_meaning, mem_holds, mem_counts_now, mem_counted, IsOut};

    ghost meaning = { mem_meaning };

    ghost holds = { mem_holds };

    ghost counts_now = { mem_counts_now };

    ghost counted = { mem_counted };

    fn page_size(&mut self) -> Result<u32, DiskFault>
        ensures size { IfOk result (λ n. (mem_meaning.size self.new ≡ Some n) × (is_page_size n ≡ true)) }
        ensures calm { Calm mem_meaning self.old self.new result }
        ensures unread { KeepsReads mem_meaning self.old self.new }
        ensures no_failed_write { FailsNoWrite mem_meaning self.old self.new }
        ensures ok { IsOk result }
        ensures same { self.new ≡ self.old }
    {
        Ok(self.size)
    }

    fn pages(&mut self) -> Result<u32, DiskFault>
        ensures count { IfOk result (λ n. mem_meaning.count self.new ≡ Some n) }
        ensures calm { Calm mem_meaning self.old self.new result }
        ensures unread { KeepsReads mem_meaning self.old self.new }
        ensures no_failed_write { FailsNoWrite mem_meaning self.old self.new }
        ensures ok { IsOk result }
        ensures same { self.new ≡ self.old }
    {
        Ok(self.used)
    }

    fn read(&mut self, page: PageNo, into: &mut [u8]) -> Result<(), DiskFault>
        requires whole { mem_meaning.size self.old ≡ Some (length into.old) }
        requires below { page.0 < unwrap_or (mem_meaning.count self.old) 0 }
        ensures page { OnOk result ((image : Image) → mem_meaning.held self.old ≡ Some image
            → into.new ≡ page_at (length into.old) image page.0) }
        ensures calm { Calm mem_meaning self.old self.new result }
        ensures reads { ReadsPage mem_meaning self.old self.new page.0 }
        ensures no_failed_write { FailsNoWrite mem_meaning self.old self.new }
        ensures counts { CountsRead mem_meaning self.old self.new page.0 result }
        ensures ok { IsOk result }
        ensures acts { acts_in self.new ≡ acts_in self.old }
    {
        self.reads = self.reads.saturating_add(1);
        self.were_read[page.0 as usize] = true;
        into.copy_from_slice(self.pages[page.0 as usize].as_slice());
        Ok(())
    }

    /// It fails exactly where the page lies past the room, or the record is full.
    fn write(&mut self, page: PageNo, bytes: &[u8]) -> Result<(), DiskFault>
        requires whole { mem_meaning.size self.old ≡ Some (length bytes.now) }
        ensures writes { Writes mem_meaning self.old self.new page.0 bytes.now result }
        ensures failed_writes { CountsFailedWrite mem_meaning self.old self.new result }
        ensures fails { IsErr result ↔ (IsOut self.old page.0) }
        ensures acts { OnOk result (acts_in self.new ≡ Write page.0 bytes.now ∷ acts_in self.old) }
        ensures absent { OnErr result (acts_in self.new ≡ acts_in self.old) }
        ensures counts { Counts self.old.asked self.new.asked }
    {
        self.asked = self.asked.saturating_add(1);
        let at = page.0 as usize;
        if at >= self.pages.len() || self.writes >= self.obeyed.len() {
            self.faults = self.faults.saturating_add(1);
            return Err(DiskFault::Failed);
        }
        self.obey(page.0, bytes);
        Ok(())
    }

    fn settle(&mut self) -> Result<(), DiskFault>
        ensures durable { OnOk result (mem_meaning.tells self.old ≡ true → (c : Image)
            → MayLeave mem_meaning self.new c → mem_meaning.held self.new ≡ Some c) }
        ensures calm { Calm mem_meaning self.old self.new result }
        ensures unread { KeepsReads mem_meaning self.old self.new }
        ensures failed_writes { CountsFailedWrite mem_meaning self.old self.new result }
        ensures ok { IsOk result }
        ensures acts { acts_in self.new ≡ acts_of (writes_of self.old) true }
    {
        self.settled = true;
        Ok(())
    }
}
