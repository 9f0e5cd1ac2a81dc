//! A disk that lets a number of page writes through and fails each later one.

ghost use Rattle.mg_fuse.specs.Fuse.{IsFuse};

use crate::CountsWrites;
use mg_base::{Disk, DiskFault, PageNo};
use mg_device::GrowingDisk;

/// Another disk, of which a number of page writes pass.
#[derive(Drop)]
pub struct Stopped<D> {
    inner: D,
    most: u32,
    passed: u32,
    blown: u64,
    ghost fuse: { IsFuse most passed blown },
}

impl<D> Stopped<D> {
    ghost use Rattle.std.specs.Prelude.{◌≡◌};
    ghost use Rattle.mg_fuse.specs.Stopped.{IsNewlyStopped, inner_of};

    /// The disk `inner`, of which `most` page writes pass.
    pub fn new(inner: D, most: u32) -> Stopped<D>
        ensures { IsNewlyStopped inner most result }
    {
        Stopped {
            inner,
            most,
            passed: 0,
            blown: 0,
        }
    }

    /// The disk itself.
    pub fn into_inner(self) -> D
        ensures { result ≡ inner_of self }
    {
        let Stopped { inner, .. } = self;
        inner
    }
}

impl<D: CountsWrites> Disk for Stopped<D> {
    ghost use Rattle.std.specs.Prelude.{◌≡◌, ◌<◌, Some, length, IsErr};
    ghost use Rattle.mg_base.specs.Disk.{CountsFailedWrite, Writes};
    ghost use Rattle.mg_fuse.specs.Stopped.{stopped_meaning, inner_of, most_of, passed_of, Blows, Passes};

    ghost meaning = { stopped_meaning D.meaning D.counts_to };

    ghost holds = { λ d told. D.holds d.inner told };

    ghost counts_now = { λ d t c told le now. D.counts_now d.inner t c told le now };

    ghost counted = { λ d image n is told. D.counted d.inner image n is told };

    fn page_size(&mut self) -> Result<u32, DiskFault> {
        self.inner.page_size()
    }

    fn pages(&mut self) -> Result<u32, DiskFault> {
        self.inner.pages()
    }

    fn read(&mut self, page: PageNo, into: &mut [u8]) -> Result<(), DiskFault> {
        self.inner.read(page, into)
    }

    /// Exactly the first page writes pass; each later one fails, and the disk stays as it is.
    fn write(&mut self, page: PageNo, bytes: &[u8]) -> Result<(), DiskFault>
        requires whole { D.meaning.size (inner_of self.old) ≡ Some (length bytes.now) }
        ensures writes { Writes (stopped_meaning D.meaning D.counts_to) self.old self.new page.0 bytes.now result }
        ensures failed_writes { CountsFailedWrite (stopped_meaning D.meaning D.counts_to) self.old self.new result }
        ensures passes { passed_of self.old < most_of self.old → Passes self.old self.new }
        ensures blows { passed_of self.old ≡ most_of self.old → IsErr result × Blows self.old self.new }
    {
        if self.passed == self.most {
            self.blown = self.blown.saturating_add(1);
            return Err(DiskFault::Failed);
        }
        self.passed += 1;
        self.inner.write_counted(page, bytes)
    }

    fn settle(&mut self) -> Result<(), DiskFault> {
        self.inner.settle()
    }
}

impl<D: CountsWrites> GrowingDisk for Stopped<D> {
    ghost never_shrinks = { λ d t c image told left held. D.never_shrinks d.inner t c image told left held };
}
