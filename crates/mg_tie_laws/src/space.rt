//! What a taken page and a changed batch are to the laws on overlays. Each function does nothing: its
//! contract is the law.

ghost use Rattle.mg_tie_laws.specs.Changed.{ChangedBatchesAre};
ghost use Rattle.mg_tie_laws.specs.Occupied.{TakenAreOccupied};

use mg_base::Disk;
use mg_careful::Links;

/// A page that was taken, and then made, is occupied.
pub fn taken_pages_are_occupied()
    ensures { TakenAreOccupied }
{}

/// Pages were read, and then the cache has changed a batch: it is one of the family.
pub fn changed_batches_are<D: Disk, L: Links>()
    ensures { ChangedBatchesAre D L D.meaning }
{}
