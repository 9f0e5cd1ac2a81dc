//! Collection keeps every overlay. The functions do nothing: their contracts are the laws.

ghost use Rattle.mg_collect_tie_laws.specs.DropTies.{DropKeeps};
ghost use Rattle.mg_collect_tie_laws.specs.TakeTies.{DeadKeeps, EraseKeeps};
ghost use Rattle.mg_image.specs.Form.{packed_form};

use mg_base::Disk;
use mg_careful::Links;
use mg_image::one_reading;

/// A version is dropped right behind a committed one.
pub fn drops_keep<D: Disk, L: Links>()
    ensures { DropKeeps packed_form D L D.meaning }
{}

/// A dead transaction's newest version is taken out, or a committed deletion that is a record's only one.
pub fn takings_out_keep<D: Disk, L: Links>()
    ensures dead { DeadKeeps packed_form D L D.meaning }
    ensures erased { EraseKeeps packed_form D L D.meaning }
{
    one_reading();
}
