//! What the heap gives to the laws on overlays. Each function's contract is the law.

ghost use Rattle.mg_tie_laws.specs.GivenTies.{GivenPagesAre};
ghost use Rattle.mg_tie_laws.specs.GivenForTies.{GivenPagesAreFor};
ghost use Rattle.mg_tie_laws.specs.SpotTies.{SpotRowKeeps, SpotRowKeepsFor};
ghost use Rattle.mg_image.specs.Form.{packed_form};

use mg_base::Disk;
use mg_careful::Links;
use mg_image::one_reading;

/// A page that is given to a table keeps every overlay.
pub fn given_pages_keep<D: Disk, L: Links>()
    ensures { SpotRowKeeps packed_form D L D.meaning }
{
    one_reading();
}

/// A page that was given to a table is the table's in each layout afterwards.
pub fn given_pages_are<D: Disk, L: Links>()
    ensures { GivenPagesAre packed_form D L D.meaning }
{
    one_reading();
}

/// A page that is given to a table, which may be its writer's own, keeps every overlay.
pub fn given_pages_keep_for<D: Disk, L: Links>()
    ensures { SpotRowKeepsFor packed_form D L D.meaning }
{
    one_reading();
}

/// A page that was given to a table, which may be its writer's own, is the table's in each layout
/// afterwards that has the table.
pub fn given_pages_are_for<D: Disk, L: Links>()
    ensures { GivenPagesAreFor packed_form D L D.meaning }
{
    one_reading();
}
