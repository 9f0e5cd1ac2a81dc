//! A device in memory, whose page writes reach it in any order until a sync.

ghost use Rattle.std.specs.Prelude.{◌≡◌, [], true};
ghost use Rattle.mg_base.specs.MemDisk.{acts_in};
ghost use Rattle.mg_device.specs.Unordered.{pending_in};

use crate::Device;
use mg_base::{Disk, DiskFault, MemDisk, Memory, PageNo};
use std::alloc::Global;

/// A device in memory. It tells exactly the images that a crash may leave: what was synced, with some
/// of the page writes since then, in any order. It takes all its memory in `new`.
#[derive(Drop)]
pub struct MemDevice {
    disk: MemDisk,
    // Nothing is pending.
    synced: bool,
    // A page write has failed.
    failed: bool,
    ghost none_pending: { synced ≡ true → pending_in (acts_in disk) ≡ [] },
}

impl MemDevice {
    ghost use Rattle.std.specs.Prelude.{IfOk, Some, false};
    ghost use Rattle.mg_base.specs.Geometry.{is_page_size};
    ghost use Rattle.mg_device.specs.MemDevice.{mem_device_meaning};

    /// A device without pages, with room for `room` of them and for a record of `writes` page writes.
    /// `size` is one of the five page sizes.
    ///
    /// # Errors
    ///
    /// `Memory` only.
    pub fn new(alloc: Global, size: u32, room: u32, writes: u32) -> Result<MemDevice, Memory>
        requires { is_page_size size ≡ true }
        ensures size { IfOk result (λ d. mem_device_meaning.size d ≡ Some size) }
        ensures synced { IfOk result (λ d. mem_device_meaning.synced d ≡ Some []) }
        ensures pending { IfOk result (λ d. mem_device_meaning.pending d ≡ []) }
        ensures failed { IfOk result (λ d. mem_device_meaning.failed d ≡ false) }
    {
        let disk = MemDisk::new(alloc, size, room, writes)?;
        Ok(MemDevice {
            disk,
            synced: true,
            failed: false,
        })
    }
}

impl Device for MemDevice {
    ghost use Rattle.mg_device.specs.MemDevice.{mem_device_meaning};
    ghost use Rattle.mg_device.specs.MemDeviceLaws.{mem_device};

    ghost meaning = { mem_device_meaning };

    ghost lawful = { mem_device };

    fn page_size(&mut self) -> Result<u32, DiskFault> {
        self.disk.page_size()
    }

    fn pages(&mut self) -> Result<u32, DiskFault> {
        self.disk.pages()
    }

    fn read(&mut self, page: PageNo, into: &mut [u8]) -> Result<(), DiskFault> {
        self.disk.read(page, into)
    }

    fn write(&mut self, page: PageNo, bytes: &[u8]) -> Result<(), DiskFault> {
        if let Err(fault) = self.disk.write(page, bytes) {
            self.failed = true;
            return Err(fault);
        }
        self.synced = false;
        Ok(())
    }

    fn sync(&mut self) -> Result<(), DiskFault> {
        self.disk.settle()?;
        self.synced = true;
        Ok(())
    }

    fn is_synced(&self) -> bool {
        self.synced
    }

    fn has_failed(&self) -> bool {
        self.failed
    }
}
