//! Versions that stay chained.

ghost use Rattle.mg_demand_laws.specs.MoveChains.{MoveIsKnown, MoveStaysChained};
ghost use Rattle.mg_demand_laws.specs.OwnChains.{OutIsKnown, OutStaysChained, OverStaysChained};
ghost use Rattle.mg_demand_laws.specs.RoomChains.{RoomStaysChained};
ghost use Rattle.mg_demand_laws.specs.WriteChains.{FirstStaysChained, PushStaysChained};

use mg_base::Disk;
use mg_space::FireLinks;

/// The versions that are wanted stay chained over each batch of versions.
pub fn versions_stay_chained<D: Disk>()
    ensures room { RoomStaysChained D FireLinks }
    ensures pushed { PushStaysChained D FireLinks }
    ensures first { FirstStaysChained D FireLinks }
    ensures over { OverStaysChained D FireLinks }
    ensures out { OutStaysChained D FireLinks }
    ensures moved { MoveStaysChained D FireLinks }
{}

/// Where they are chained, nothing else leads to a version that is moved or taken out.
pub fn own_versions_are_unled<D: Disk>()
    ensures out { OutIsKnown D FireLinks }
    ensures moved { MoveIsKnown D FireLinks }
{}
