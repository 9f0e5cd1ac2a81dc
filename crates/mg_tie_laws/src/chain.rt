//! What version chains give to the laws on overlays. Each function's contract is the law.

ghost use Rattle.mg_tie_laws.specs.BackTies.{BackRowKeeps, BackRowKeepsFor};
ghost use Rattle.mg_tie_laws.specs.FirstTies.{FirstRowKeeps, FirstRowKeepsFor};
ghost use Rattle.mg_tie_laws.specs.MoveTies.{MoveRowKeeps, MoveRowKeepsFor};
ghost use Rattle.mg_tie_laws.specs.PlaceTies.{PlaceRowKeeps, PlaceRowKeepsFor};
ghost use Rattle.mg_tie_laws.specs.PushTies.{PushRowKeeps, PushRowKeepsFor};
ghost use Rattle.mg_tie_laws.specs.SpotRowTies.{SpotRowGives, SpotRowGivesFor};
ghost use Rattle.mg_image.specs.Form.{packed_form};

use mg_base::Disk;
use mg_careful::Links;
use mg_image::one_reading;

/// A pushed version keeps every overlay.
pub fn pushes_keep<D: Disk, L: Links>()
    ensures { PushRowKeeps packed_form D L D.meaning }
{
    one_reading();
}

/// A record's first version keeps every overlay.
pub fn first_versions_keep<D: Disk, L: Links>()
    ensures { FirstRowKeeps packed_form D L D.meaning }
{
    one_reading();
}

/// An own version that is replaced in its cell keeps every overlay.
pub fn replacements_keep<D: Disk, L: Links>()
    ensures { PlaceRowKeeps packed_form D L D.meaning }
{
    one_reading();
}

/// An own version that moves to another cell keeps every overlay.
pub fn moves_keep<D: Disk, L: Links>()
    ensures { MoveRowKeeps packed_form D L D.meaning }
{
    one_reading();
}

/// A version that is taken back keeps every overlay.
pub fn taking_back_keeps<D: Disk, L: Links>()
    ensures { BackRowKeeps packed_form D L D.meaning }
{
    one_reading();
}

/// A place that is given keeps every overlay, and is free and the table's.
pub fn given_places_keep<D: Disk, L: Links>()
    ensures { SpotRowGives packed_form D L D.meaning }
{
    one_reading();
}

/// A record's first version, in a table that may be its writer's own, keeps every overlay.
pub fn first_versions_keep_for<D: Disk, L: Links>()
    ensures { FirstRowKeepsFor packed_form D L D.meaning }
{
    one_reading();
}

/// A pushed version, in a table that may be its writer's own, keeps every overlay.
pub fn pushes_keep_for<D: Disk, L: Links>()
    ensures { PushRowKeepsFor packed_form D L D.meaning }
{
    one_reading();
}

/// An own version that is replaced in its cell, in a table that may be its writer's own, keeps every overlay.
pub fn replacements_keep_for<D: Disk, L: Links>()
    ensures { PlaceRowKeepsFor packed_form D L D.meaning }
{
    one_reading();
}

/// An own version that moves to another cell, in a table that may be its writer's own, keeps every overlay.
pub fn moves_keep_for<D: Disk, L: Links>()
    ensures { MoveRowKeepsFor packed_form D L D.meaning }
{
    one_reading();
}

/// A version that is taken back, in a table that may be its writer's own, keeps every overlay.
pub fn taking_back_keeps_for<D: Disk, L: Links>()
    ensures { BackRowKeepsFor packed_form D L D.meaning }
{
    one_reading();
}

/// A place that is given in a table that may be a transaction's own keeps every overlay, and is free and the
/// table's.
pub fn given_places_keep_for<D: Disk, L: Links>()
    ensures { SpotRowGivesFor packed_form D L D.meaning }
{
    one_reading();
}
