//! A disk whose first page write waits.

use mg_base::{Disk, DiskFault, MemDisk, PageNo};
use std::alloc::Global;
use std::sync::Arc;
use std::sync::atomic::{AtomicBool, Ordering};
use std::thread;

// How often the first page write looks for the flag.
const LOOKS: u32 = 10_000_000;

/// A disk in memory whose first page write waits until its caller has set a flag, or until it has looked
/// for it ten million times.
#[derive(Drop)]
pub struct Waiting {
    inner: MemDisk,
    go: Arc<AtomicBool, Global>,
    waited: bool,
    seen: bool,
}

impl Waiting {
    ghost use Rattle.std.specs.Prelude.{◌≡◌};
    ghost use Rattle.mg_behind_tests.specs.Waiting.{inner_of};

    /// The disk `inner`, whose first page write waits for `go`.
    pub fn new(inner: MemDisk, go: Arc<AtomicBool, Global>) -> Waiting
        ensures { inner_of result ≡ inner }
    {
        Waiting {
            inner,
            go,
            waited: false,
            seen: false,
        }
    }

    /// Whether the first page write saw the flag.
    pub fn has_seen(&self) -> bool {
        self.seen
    }
}

// Looks for the flag. Tells whether it saw it.
fn wait_for(go: &Arc<AtomicBool, Global>) -> bool {
    for _ in 0..LOOKS {
        if go.load(Ordering::SeqCst) {
            return true;
        }
        thread::yield_now();
    }
    false
}

impl Disk for Waiting {
    ghost use Rattle.mg_base.specs.MemDisk.{mem_holds, mem_counts_now, mem_counted};
    ghost use Rattle.mg_behind_tests.specs.Waiting.{waiting_meaning};

    ghost meaning = { waiting_meaning };

    ghost holds = { λ d told. mem_holds d.inner told };

    ghost counts_now = { λ d t c told le now. mem_counts_now d.inner t c told le now };

    ghost counted = { λ d image n is told. mem_counted d.inner image n is told };

    fn page_size(&mut self) -> Result<u32, DiskFault> {
        self.inner.page_size()
    }

    fn pages(&mut self) -> Result<u32, DiskFault> {
        self.inner.pages()
    }

    fn read(&mut self, page: PageNo, into: &mut [u8]) -> Result<(), DiskFault> {
        self.inner.read(page, into)
    }

    fn write(&mut self, page: PageNo, bytes: &[u8]) -> Result<(), DiskFault> {
        if !self.waited {
            self.waited = true;
            self.seen = wait_for(&self.go);
        }
        self.inner.write(page, bytes)
    }

    fn settle(&mut self) -> Result<(), DiskFault> {
        self.inner.settle()
    }
}
