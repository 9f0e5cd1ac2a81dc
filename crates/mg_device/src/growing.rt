//! Disks that lose no page.

ghost use Rattle.mg_device.specs.Growing.{NeverShrinks};

use crate::{Device, ForcedWrites};
use mg_base::{Disk, FaultyDisk, MemDisk};

/// A disk to which pages are added, and of which none is taken away. What is promised of a page limit at every moment of a
/// run stands on it.
pub trait GrowingDisk: Disk {
    /// What a crash might have left, at any moment, has no more pages than the disk holds.
    ghost never_shrinks: { NeverShrinks Self.meaning };
}

impl GrowingDisk for MemDisk {
    ghost use Rattle.mg_device.specs.GrowingLaws.{mem_never_shrinks};

    ghost never_shrinks = { mem_never_shrinks };
}

impl GrowingDisk for FaultyDisk {
    ghost use Rattle.mg_device.specs.GrowingLaws.{mem_never_shrinks};

    ghost never_shrinks = { λ d t c image told left held. mem_never_shrinks d.inner t c image told left held };
}

impl<V: Device> GrowingDisk for ForcedWrites<V> {
    ghost use Rattle.mg_device.specs.DeviceLaws.{device_never_shrinks};

    ghost never_shrinks = { λ d t c image told left held. device_never_shrinks V.meaning V.lawful d.device t c image told left held };
}
