//! Disks of which it is known how a page write is counted.

ghost use Rattle.std.specs.Prelude.{◌≡◌, ◌-◌, ◌^◌, ℕ, length, Some};
ghost use Rattle.mg_base.specs.Disk.{CountsFailedWrite, Writes};
ghost use Rattle.mg_fuse.specs.Counting.{CountsUpTo};

use mg_base::{Disk, DiskFault, FaultyDisk, MemDisk, PageNo};
use mg_device::{Device, ForcedWrites, GrowingDisk};

/// A disk that counts each page write that it is asked for, or none, and that loses no page.
pub trait CountsWrites: GrowingDisk {
    /// Where its count of page writes ends: 0 where it counts none.
    ghost counts_to: { ℕ };

    /// Writes a page, as `write` does. The page write is counted, whether it fails or not.
    fn write_counted(&mut self, page: PageNo, bytes: &[u8]) -> Result<(), DiskFault>
        requires whole { Self.meaning.size self.old ≡ Some (length bytes.now) }
        ensures writes { Writes Self.meaning self.old self.new page.0 bytes.now result }
        ensures failed_writes { CountsFailedWrite Self.meaning self.old self.new result }
        ensures counts { CountsUpTo counts_to (Self.meaning.asked self.old) (Self.meaning.asked self.new) };
}

impl CountsWrites for MemDisk {
    ghost counts_to = { 2 ^ 64 - 1 };

    fn write_counted(&mut self, page: PageNo, bytes: &[u8]) -> Result<(), DiskFault> {
        self.write(page, bytes)
    }
}

impl CountsWrites for FaultyDisk {
    ghost counts_to = { 2 ^ 64 - 1 };

    fn write_counted(&mut self, page: PageNo, bytes: &[u8]) -> Result<(), DiskFault> {
        self.write(page, bytes)
    }
}

impl<V: Device> CountsWrites for ForcedWrites<V> {
    ghost counts_to = { 0 };

    fn write_counted(&mut self, page: PageNo, bytes: &[u8]) -> Result<(), DiskFault> {
        self.write(page, bytes)
    }
}
