//! A disk in memory whose calls fail where a test says so.

use crate::{Disk, DiskFault, MemDisk, PageNo};

/// A disk in memory of which the calls with the listed numbers fail. All kinds of calls are counted
/// together, from 1; a call that fails leaves the disk as it was.
#[derive(Drop)]
pub struct FaultyDisk {
    inner: MemDisk,
    bad: Vec<u32>,
    calls: u32,
    failed: u64,
    // How many of the calls that failed were page writes, or settled the disk.
    failed_writes: u64,
    // How many page writes and page reads it was asked for.
    asked: u64,
    reads: u64,
}

impl FaultyDisk {
    ghost use Rattle.std.specs.Prelude.{◌≡◌, ◌↔◌, ◌≤◌, IsErr, OnErr, OnOk};
    ghost use Rattle.mg_base.specs.Disk.{Rose};
    ghost use Rattle.mg_base.specs.FaultyDisk.{faulty_meaning, disk_of, bad_of, calls_of, FailsNext};
    ghost use Rattle.mg_base.specs.Calls.{next_call};

    /// The disk `inner`, of which the calls with these numbers fail.
    pub fn new(inner: MemDisk, bad: Vec<u32>) -> FaultyDisk
        ensures inner { disk_of result ≡ inner }
        ensures bad { bad_of result ≡ bad.items }
        ensures calls { calls_of result ≡ 0 }
        ensures asked { faulty_meaning.asked result ≡ 0 }
        ensures reads { faulty_meaning.reads result ≡ 0 }
    {
        FaultyDisk {
            inner,
            bad,
            calls: 0,
            failed: 0,
            failed_writes: 0,
            asked: 0,
            reads: 0,
        }
    }

    /// The number of calls so far. It stands still at its type's end.
    pub fn calls(&self) -> u32
        ensures { result ≡ calls_of self.now }
    {
        self.calls
    }

    /// The disk in memory.
    pub fn into_inner(self) -> MemDisk
        ensures { result ≡ disk_of self }
    {
        let FaultyDisk { inner, .. } = self;
        inner
    }

    // Counts a call, and tells whether it goes on.
    fn admit(&mut self) -> Result<(), DiskFault>
        ensures inner { self.new.inner ≡ self.old.inner }
        ensures bad { self.new.bad ≡ self.old.bad }
        ensures asked { self.new.asked ≡ self.old.asked }
        ensures reads { self.new.reads ≡ self.old.reads }
        ensures failed_writes { self.new.failed_writes ≡ self.old.failed_writes }
        ensures calls { self.new.calls ≡ next_call self.old.calls }
        ensures listed { IsErr result ↔ FailsNext self.old }
        ensures never_falls { self.old.failed ≤ self.new.failed }
        ensures rose { OnErr result (Rose self.old.failed self.new.failed) }
        ensures steady { OnOk result (self.new.failed ≡ self.old.failed) }
    {
        self.calls = self.calls.saturating_add(1);
        if self.bad.contains(&self.calls) {
            self.failed = self.failed.saturating_add(1);
            return Err(DiskFault::Failed);
        }
        Ok(())
    }

    // Counts a page write or a settling, and tells whether it goes on.
    fn admit_write(&mut self) -> Result<(), DiskFault>
        ensures inner { self.new.inner ≡ self.old.inner }
        ensures bad { self.new.bad ≡ self.old.bad }
        ensures asked { self.new.asked ≡ self.old.asked }
        ensures reads { self.new.reads ≡ self.old.reads }
        ensures calls { self.new.calls ≡ next_call self.old.calls }
        ensures listed { IsErr result ↔ FailsNext self.old }
        ensures never_falls { self.old.failed ≤ self.new.failed }
        ensures rose { OnErr result (Rose self.old.failed self.new.failed) }
        ensures steady { OnOk result (self.new.failed ≡ self.old.failed) }
        ensures writes_never_fall { self.old.failed_writes ≤ self.new.failed_writes }
        ensures writes_rose { OnErr result (Rose self.old.failed_writes self.new.failed_writes) }
        ensures writes_steady { OnOk result (self.new.failed_writes ≡ self.old.failed_writes) }
    {
        let admitted = self.admit();
        if admitted.is_err() {
            self.failed_writes = self.failed_writes.saturating_add(1);
        }
        admitted
    }
}

impl Disk for FaultyDisk {
    ghost use Rattle.std.specs.Prelude.{◌≡◌, ◌↔◌, ◌⊎◌, ◌<◌, ℕ, true, Some, IsErr, IfOk, OnOk, length, unwrap_or};
    ghost use Rattle.mg_base.specs.Disk.{Calm, Counts, CountsRead, KeepsReads, ReadsPage, Writes, MayLeave, FailsNoWrite, CountsFailedWrite};
    ghost use Rattle.mg_base.specs.Geometry.{is_page_size};
    ghost use Rattle.mg_base.specs.Image.{Image, page_at};
    ghost use Rattle.mg_base.specs.MemDisk.{IsOut};
    ghost use Rattle.mg_base.specs.FaultyDisk.{faulty_meaning, disk_of, FailsNext};
    ghost use Rattle.mg_base.specs.MemDisk.{mem_holds, mem_counts_now, mem_counted};

    ghost meaning = { faulty_meaning };

    ghost holds = { λ d told. mem_holds d.inner told };

    ghost counts_now = { λ d t c told le now. mem_counts_now d.inner t c told le now };

    ghost counted = { λ d image n is told. mem_counted d.inner image n is told };

    fn page_size(&mut self) -> Result<u32, DiskFault>
        ensures size { IfOk result (λ n. (faulty_meaning.size self.new ≡ Some n) × (is_page_size n ≡ true)) }
        ensures calm { Calm faulty_meaning self.old self.new result }
        ensures unread { KeepsReads faulty_meaning self.old self.new }
        ensures no_failed_write { FailsNoWrite faulty_meaning self.old self.new }
        ensures fails { IsErr result ↔ FailsNext self.old }
    {
        self.admit()?;
        self.inner.page_size()
    }

    fn pages(&mut self) -> Result<u32, DiskFault>
        ensures count { IfOk result (λ n. faulty_meaning.count self.new ≡ Some n) }
        ensures calm { Calm faulty_meaning self.old self.new result }
        ensures unread { KeepsReads faulty_meaning self.old self.new }
        ensures no_failed_write { FailsNoWrite faulty_meaning self.old self.new }
        ensures fails { IsErr result ↔ FailsNext self.old }
    {
        self.admit()?;
        self.inner.pages()
    }

    fn read(&mut self, page: PageNo, into: &mut [u8]) -> Result<(), DiskFault>
        requires whole { faulty_meaning.size self.old ≡ Some (length into.old) }
        requires below { page.0 < unwrap_or (faulty_meaning.count self.old) 0 }
        ensures page { OnOk result ((image : Image) → faulty_meaning.held self.old ≡ Some image
            → into.new ≡ page_at (length into.old) image page.0) }
        ensures calm { Calm faulty_meaning self.old self.new result }
        ensures reads { ReadsPage faulty_meaning self.old self.new page.0 }
        ensures no_failed_write { FailsNoWrite faulty_meaning self.old self.new }
        ensures counts { CountsRead faulty_meaning self.old self.new page.0 result }
        ensures fails { IsErr result ↔ FailsNext self.old }
    {
        self.reads = self.reads.saturating_add(1);
        self.admit()?;
        self.inner.read(page, into)
    }

    fn write(&mut self, page: PageNo, bytes: &[u8]) -> Result<(), DiskFault>
        requires whole { faulty_meaning.size self.old ≡ Some (length bytes.now) }
        ensures writes { Writes faulty_meaning self.old self.new page.0 bytes.now result }
        ensures failed_writes { CountsFailedWrite faulty_meaning self.old self.new result }
        ensures fails { IsErr result ↔ (FailsNext self.old ⊎ IsOut (disk_of self.old) page.0) }
        ensures counts { Counts self.old.asked self.new.asked }
    {
        self.asked = self.asked.saturating_add(1);
        self.admit_write()?;
        self.inner.write(page, bytes)
    }

    fn settle(&mut self) -> Result<(), DiskFault>
        ensures durable { OnOk result (faulty_meaning.tells self.old ≡ true → (c : Image)
            → MayLeave faulty_meaning self.new c → faulty_meaning.held self.new ≡ Some c) }
        ensures calm { Calm faulty_meaning self.old self.new result }
        ensures unread { KeepsReads faulty_meaning self.old self.new }
        ensures failed_writes { CountsFailedWrite faulty_meaning self.old self.new result }
        ensures fails { IsErr result ↔ FailsNext self.old }
    {
        self.admit_write()?;
        self.inner.settle()
    }
}
