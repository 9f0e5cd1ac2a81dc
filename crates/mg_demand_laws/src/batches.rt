//! The batches, and runs of them.

ghost use Rattle.mg_image.specs.Form.{packed_form};
ghost use Rattle.mg_demand_laws.specs.CellDemands.{OverwritesPay, PutsPay, TurnsPay, VersionsPay};
ghost use Rattle.mg_demand_laws.specs.CommitDemands.{EndsPay};
ghost use Rattle.mg_demand_laws.specs.DrawDemands.{DrawsPay};
ghost use Rattle.mg_demand_laws.specs.GrowDemands.{ChainPays, GrowthPays};
ghost use Rattle.mg_demand_laws.specs.Runs.{BatchBearsExactly, BatchBearsLinks, RunsBear, ThreeHasBoth};
ghost use Rattle.mg_demand_laws.specs.Starts.{CrashesAreLinked, OpenedBears};

use crate::{all_is_borne, demands_are_borne, sound_images_are_linked};
use mg_space::FireLinks;

/// The drawing of a number pays for its header, and for its new transaction inventory page.
pub fn draws_pay()
    ensures { DrawsPay }
{}

/// The end of a transaction pays for its bits.
pub fn ends_pay()
    ensures { EndsPay }
{}

/// A table that gets a data page pays for its entry, and for a new pointer page where that lists it.
pub fn growth_pays()
    ensures growth { GrowthPays }
    ensures chain { ChainPays }
{}

/// A version that is written pays for its cell, and for the slot that comes to lead to it; a slot that is
/// turned pays for what it leads to; and a version that is written over costs nothing.
pub fn versions_pay()
    ensures put { PutsPay }
    ensures turned { TurnsPay }
    ensures written { VersionsPay }
    ensures over { OverwritesPay }
{}

/// Page writes, and batches that pay and drop, one after the other: the demands are borne still, with all
/// roots, and every crash image is linked from them.
pub fn runs_bear()
    ensures runs { RunsBear }
    ensures batch { BatchBearsLinks }
    ensures exactly { BatchBearsExactly }
    ensures both { ThreeHasBoth }
{
    all_is_borne::<FireLinks>();
    demands_are_borne::<FireLinks>()
}

/// A cache over a sound image bears its demands, before anything is changed.
pub fn opened_images_bear()
    ensures { OpenedBears packed_form }
{
    all_is_borne::<FireLinks>();
    sound_images_are_linked()
}

/// Over a sound image, whatever page writes and batches that pay have followed: each image that a crash may
/// leave is linked from the roots that it had.
pub fn crashes_are_linked()
    ensures { CrashesAreLinked packed_form }
{
    sound_images_are_linked();
    runs_bear();
    opened_images_bear()
}
