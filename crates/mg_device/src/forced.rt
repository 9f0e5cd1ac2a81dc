//! A disk over a device: each page write is forced, so that page writes reach the device in their order.

use crate::Device;
use mg_base::{Disk, DiskFault, PageNo};

/// A device as a disk. A page write has reached the device before it answers. After a page write or a
/// sync that failed nothing more is read, written or settled: what did not reach the device may have
/// been dropped by then, and neither a read nor the next sync would tell.
#[derive(Drop)]
pub struct ForcedWrites<V> {
    device: V,
    // How often a call was refused, since a page write or a sync had failed.
    refused: u64,
    // How many page writes failed, and how often the settling did.
    failed_writes: u64,
}

impl<V> ForcedWrites<V> {
    ghost use Rattle.std.specs.Prelude.{◌≡◌};
    ghost use Rattle.mg_device.specs.Forced.{device_of};

    /// The device as a disk. What is pending on it is synced at the first call that reads, writes or
    /// settles.
    pub fn new(device: V) -> ForcedWrites<V>
        ensures { device_of result ≡ device }
    {
        ForcedWrites {
            device,
            refused: 0,
            failed_writes: 0,
        }
    }

    /// The device itself.
    pub fn into_inner(self) -> V
        ensures { result ≡ device_of self }
    {
        let ForcedWrites { device, .. } = self;
        device
    }
}

impl<V: Device> ForcedWrites<V> {
    ghost use Rattle.std.specs.Prelude.{◌≡◌, ◌≤◌, [], true, false, Some, IsErr, OnOk, length};
    ghost use Rattle.mg_base.specs.Disk.{Calm, Rose, Writes};
    ghost use Rattle.mg_device.specs.Forced.{HasCause, device_of, forced_meaning};

    // Syncs what is pending.
    fn clear(&mut self) -> Result<(), DiskFault>
        ensures pending { OnOk result (V.meaning.pending (device_of self.new) ≡ []) }
        ensures steady { OnOk result (V.meaning.faults (device_of self.new) ≡ V.meaning.faults (device_of self.old)) }
        ensures goes_on { OnOk result (V.meaning.failed (device_of self.new) ≡ false) }
        ensures refused { V.meaning.failed (device_of self.old) ≡ true → IsErr result }
        ensures cause { HasCause V.meaning self.old self.new result }
        ensures calm { Calm (forced_meaning V.meaning) self.old self.new result }
        ensures uncounted { self.new.failed_writes ≡ self.old.failed_writes }
    {
        if self.device.has_failed() {
            self.refused = self.refused.saturating_add(1);
            return Err(DiskFault::Failed);
        }
        if self.device.is_synced() {
            return Ok(());
        }
        self.device.sync()
    }

    // Writes a page and waits until it is on the device.
    fn force(&mut self, page: PageNo, bytes: &[u8]) -> Result<(), DiskFault>
        requires pending { V.meaning.pending (device_of self.old) ≡ [] }
        requires goes_on { V.meaning.failed (device_of self.old) ≡ false }
        requires whole { V.meaning.size (device_of self.old) ≡ Some (length bytes.now) }
        ensures writes { Writes (forced_meaning V.meaning) self.old self.new page.0 bytes.now result }
        ensures forced { OnOk result (V.meaning.pending (device_of self.new) ≡ []) }
        ensures cause { HasCause V.meaning self.old self.new result }
        ensures uncounted { self.new.failed_writes ≡ self.old.failed_writes }
    {
        self.device.write(page, bytes)?;
        self.device.sync()
    }

    // Syncs what is pending, writes a page, and waits until it is on the device.
    fn write_out(&mut self, page: PageNo, bytes: &[u8]) -> Result<(), DiskFault>
        requires whole { V.meaning.size (device_of self.old) ≡ Some (length bytes.now) }
        ensures writes { Writes (forced_meaning V.meaning) self.old self.new page.0 bytes.now result }
        ensures forced { OnOk result (V.meaning.pending (device_of self.new) ≡ []) }
        ensures refused { V.meaning.failed (device_of self.old) ≡ true → IsErr result }
        ensures cause { HasCause V.meaning self.old self.new result }
        ensures uncounted { self.new.failed_writes ≡ self.old.failed_writes }
    {
        self.clear()?;
        self.force(page, bytes)
    }

    // Counts a page write or a settling that failed.
    fn count_failed(&mut self, answer: &Result<(), DiskFault>)
        ensures same { self.new ≡ record self.old { failed_writes = self.new.failed_writes } }
        ensures device { device_of self.new ≡ device_of self.old }
        ensures never_falls { self.old.failed_writes ≤ self.new.failed_writes }
        ensures rose { IsErr answer.now → Rose self.old.failed_writes self.new.failed_writes }
        ensures steady { OnOk answer.now (self.new.failed_writes ≡ self.old.failed_writes) }
    {
        if answer.is_err() {
            self.failed_writes = self.failed_writes.saturating_add(1);
        }
    }
}

impl<V: Device> Disk for ForcedWrites<V> {
    ghost use Rattle.std.specs.Prelude.{◌≡◌, ◌<◌, ℕ, [], true, Some, IsErr, IfOk, OnOk, length, unwrap_or};
    ghost use Rattle.mg_base.specs.Disk.{Calm, CountsFailedWrite, FailsNoWrite, KeepsReads, MayLeave, ReadsPage, Writes};
    ghost use Rattle.mg_base.specs.Image.{Image, page_at};
    ghost use Rattle.mg_device.specs.Forced.{HasCause, device_of, forced_meaning};
    ghost use Rattle.mg_device.specs.DeviceLaws.{device_counted, device_counts_now, device_holds};

    ghost meaning = { forced_meaning V.meaning };

    ghost holds = { λ d told. device_holds V.meaning V.lawful d.device told };

    ghost counts_now = { λ d t c told le now. device_counts_now V.meaning V.lawful d.device t c told le now };

    ghost counted = { λ d image n held is. device_counted V.meaning V.lawful d.device image n held is };

    fn page_size(&mut self) -> Result<u32, DiskFault> {
        self.device.page_size()
    }

    fn pages(&mut self) -> Result<u32, DiskFault> {
        self.device.pages()
    }

    /// It fails where a page write or a sync has failed before.
    fn read(&mut self, page: PageNo, into: &mut [u8]) -> Result<(), DiskFault>
        requires whole { V.meaning.size (device_of self.old) ≡ Some (length into.old) }
        requires below { page.0 < unwrap_or (V.meaning.count (device_of self.old)) 0 }
        ensures page { OnOk result ((image : Image) → (forced_meaning V.meaning).held self.old ≡ Some image
            → into.new ≡ page_at (length into.old) image page.0) }
        ensures calm { Calm (forced_meaning V.meaning) self.old self.new result }
        ensures reads { ReadsPage (forced_meaning V.meaning) self.old self.new page.0 }
        ensures no_failed_write { FailsNoWrite (forced_meaning V.meaning) self.old self.new }
        ensures refused { V.meaning.failed (device_of self.old) ≡ true → IsErr result }
        ensures cause { HasCause V.meaning self.old self.new result }
    {
        self.clear()?;
        self.device.read(page, into)
    }

    /// At Ok the page is on the device to stay. It fails where a page write or a sync has failed before.
    fn write(&mut self, page: PageNo, bytes: &[u8]) -> Result<(), DiskFault>
        requires whole { V.meaning.size (device_of self.old) ≡ Some (length bytes.now) }
        ensures writes { Writes (forced_meaning V.meaning) self.old self.new page.0 bytes.now result }
        ensures failed_writes { CountsFailedWrite (forced_meaning V.meaning) self.old self.new result }
        ensures forced { OnOk result (V.meaning.pending (device_of self.new) ≡ []) }
        ensures refused { V.meaning.failed (device_of self.old) ≡ true → IsErr result }
        ensures cause { HasCause V.meaning self.old self.new result }
    {
        let written = self.write_out(page, bytes);
        self.count_failed(&written);
        written
    }

    /// It fails where a page write or a sync has failed before.
    fn settle(&mut self) -> Result<(), DiskFault>
        ensures durable { OnOk result (V.meaning.tells (device_of self.old) ≡ true → (c : Image)
            → MayLeave (forced_meaning V.meaning) self.new c → (forced_meaning V.meaning).held self.new ≡ Some c) }
        ensures calm { Calm (forced_meaning V.meaning) self.old self.new result }
        ensures unread { KeepsReads (forced_meaning V.meaning) self.old self.new }
        ensures failed_writes { CountsFailedWrite (forced_meaning V.meaning) self.old self.new result }
        ensures refused { V.meaning.failed (device_of self.old) ≡ true → IsErr result }
        ensures cause { HasCause V.meaning self.old self.new result }
    {
        let settled = self.clear();
        self.count_failed(&settled);
        settled
    }
}
