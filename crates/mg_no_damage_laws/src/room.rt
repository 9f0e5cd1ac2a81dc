//! How many of the free pages the calls of an engine take, and that they are refused for want of pages only where
//! fewer are free.

ghost use Rattle.mg_no_damage_laws.specs.FewPagesCalls.{AsksTakeNone, BeginsTakeFew, CommitsTakeNone, CreationsTakeFew, FoundsTakeNone, LooksTakeNone, MarksOverTakeFew, MarksTakeFew, PageWritesTakeNone, PointsTakeNone, RollbacksTakeNone, SavepointsOverTakeFew, SavepointsTakeFew, StepsTakeNone, TablesTakeNone, VisitsTakeNone, WritesTakeFew};
ghost use Rattle.mg_no_damage_laws.specs.FewPagesLaws.{KnowsRoom};
ghost use Rattle.mg_no_damage_laws.specs.GivenCounts.{KnowsGiven};

use crate::{creations_grow_few, pages_are_taken, trees_stand_back};
use mg_base::Disk;
use mg_core::Place;
use mg_engine_change_laws::{first_batches_stay, keys_are_taken, noted_tables_are_quiet};
use mg_entry_tie_laws::{insertions_meet_none, insertions_take_few};
use mg_model::histories_go_on;
use mg_taking_back::steps_come_to_an_end;
use mg_undo::{the_list_follows_the_machine, what_was_is_given};

/// How many pages each batch takes is known, and that a disk that tells what a crash may leave holds an image.
pub fn room_is_known<D: Disk>()
    ensures { KnowsRoom D.meaning }
{
    pages_are_taken();
    insertions_take_few();
    insertions_meet_none();
}

/// A transaction that begins takes two pages at most, and where so many are free it is not refused for want of pages.
pub fn begins_take_few<D: Disk>()
    ensures { BeginsTakeFew D D.meaning }
{
    pages_are_taken();
}

/// Events that change what is in memory alone take no page, and are not refused for want of pages.
pub fn events_take_none<D: Disk>()
    ensures looks { LooksTakeNone D D.meaning }
    ensures founds { FoundsTakeNone D D.meaning }
    ensures points { PointsTakeNone D D.meaning }
    ensures rollbacks { RollbacksTakeNone D D.meaning }
{}

/// So it is of what a transaction reads.
pub fn readings_take_none<D: Disk>()
    ensures tables { TablesTakeNone D D.meaning }
    ensures visits { VisitsTakeNone D D.meaning }
{}

/// So it is of commits, and of page writes.
pub fn commits_take_none<D: Disk>()
    ensures asks { AsksTakeNone D D.meaning }
    ensures steps { StepsTakeNone D D.meaning }
    ensures ends { CommitsTakeNone D D.meaning }
    ensures pages { PageWritesTakeNone D D.meaning }
{
    histories_go_on();
}

/// A row that is written takes five pages at most, and twenty for each index of its table; where so many are free it is
/// not refused for want of pages.
pub fn writes_take_few<D: Disk>()
    ensures { WritesTakeFew D D.meaning }
{
    room_is_known::<D>();
    noted_tables_are_quiet::<D>();
    first_batches_stay::<D, Place>();
}

/// What is given as a transaction is taken back is counted by its history.
pub fn counts_are_known()
    ensures { KnowsGiven }
{
    the_list_follows_the_machine();
    what_was_is_given();
    keys_are_taken();
    steps_come_to_an_end();
}

/// A transaction that is taken back to a point, where no table goes, takes five pages at most for each record that is
/// taken back with it, and where so many are free it is not refused for want of pages.
pub fn backs_take_few<D: Disk>()
    ensures marks { MarksTakeFew D D.meaning }
    ensures savepoints { SavepointsTakeFew D D.meaning }
{
    room_is_known::<D>();
    counts_are_known();
    trees_stand_back::<D>();
}

/// A transaction that is taken back to a point over tables that it has made takes five pages at most for each record
/// that is taken back with it, and where so many are free it is not refused for want of pages.
pub fn backs_over_take_few<D: Disk>()
    ensures marks { MarksOverTakeFew D D.meaning }
    ensures savepoints { SavepointsOverTakeFew D D.meaning }
{
    room_is_known::<D>();
    counts_are_known();
    trees_stand_back::<D>();
}

/// A table with c columns takes 4 + 5 * (c + 1) pages at most as it is made, and where so many are free it is not
/// refused for want of pages.
pub fn creations_take_few<D: Disk, P>()
    ensures { CreationsTakeFew D P D.meaning }
{
    room_is_known::<D>();
    pages_are_taken();
    creations_grow_few::<D, P>();
}
