//! The device: pages of one size, of which a page write reaches the medium at any time until a sync.

ghost use Rattle.std.specs.Prelude.{◌≡◌, ◌<◌, [], true, Some, IfOk, OnOk, length, unwrap_or};
ghost use Rattle.mg_base.specs.Image.{Image, page_at};
ghost use Rattle.mg_base.specs.Geometry.{is_page_size};
ghost use Rattle.mg_device.specs.Device.{DeviceMeaning, IsDevice, Pends, Rests, Syncs};

use mg_base::{DiskFault, PageNo};

/// Pages of one size, numbered from 0, under a cache that nobody rules.
///
/// What a device tells is its `meaning`. Page writes are whole or absent. Until a `sync` that answers
/// Ok they may reach the device in any order and any subset, at any time; then they are there to stay.
/// After a page write or a sync that failed, what is pending may have been dropped, and no later sync
/// tells.
///
/// # Errors
///
/// Each call answers `Failed` only where the device's count of faults rose in it.
pub trait Device {
    ghost meaning: { DeviceMeaning Self };

    /// The size of a page in bytes: one of the five, always the same.
    fn page_size(&mut self) -> Result<u32, DiskFault>
        ensures size { IfOk result (λ n. (meaning.size self.new ≡ Some n) × (is_page_size n ≡ true)) }
        ensures rests { Rests meaning self.old self.new result };

    /// The number of pages.
    fn pages(&mut self) -> Result<u32, DiskFault>
        ensures count { IfOk result (λ n. meaning.count self.new ≡ Some n) }
        ensures rests { Rests meaning self.old self.new result };

    /// Reads a page. `into` is one page long, and the page is below the number of pages, which the
    /// caller has asked for. What is read is told where no page write is pending.
    fn read(&mut self, page: PageNo, into: &mut [u8]) -> Result<(), DiskFault>
        requires whole { meaning.size self.old ≡ Some (length into.old) }
        requires below { page.0 < unwrap_or (meaning.count self.old) 0 }
        ensures page { OnOk result (meaning.pending self.old ≡ [] → (image : Image)
            → meaning.synced self.old ≡ Some image → into.new ≡ page_at (length into.old) image page.0) }
        ensures rests { Rests meaning self.old self.new result };

    /// Writes a page. `bytes` is one page long. A page past the end lengthens the device up to that
    /// page, with pages of zeros between.
    fn write(&mut self, page: PageNo, bytes: &[u8]) -> Result<(), DiskFault>
        requires whole { meaning.size self.old ≡ Some (length bytes.now) }
        ensures pends { Pends meaning self.old self.new (record { page = page.0; bytes = bytes.now }) result };

    /// Waits until what was written is on the device to stay. Its Ok says so where nothing failed before.
    fn sync(&mut self) -> Result<(), DiskFault>
        ensures syncs { Syncs meaning self.old self.new result };

    /// Tells whether no page write is pending. A device that does not know says no.
    fn is_synced(&self) -> bool
        ensures { result ≡ true → meaning.pending self.now ≡ [] };

    /// Tells whether a page write or a sync has failed.
    fn has_failed(&self) -> bool
        ensures { result ≡ meaning.failed self.now };

    ghost lawful: { IsDevice meaning };
}
