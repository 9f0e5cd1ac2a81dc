//! An entry is laid by an engine. Each function does nothing: its contract is the law.

ghost use Rattle.mg_image.specs.Form.{packed_form};
ghost use Rattle.mg_entry_step_laws.specs.EntryMidway.{EntriesStayMidway};
ghost use Rattle.mg_entry_step_laws.specs.EntryStays.{EntriesStay};

use mg_base::Disk;
use mg_careful::Links;
use mg_engine_step_laws::batches_last;
use mg_entry_overlay_laws::entry_batches_keep;
use mg_entry_tie_laws::insertions_lay;
use mg_model::histories_go_on;
use mg_space::FireLinks;

/// An engine that lays an entry in an index of a table that is there, or that a transaction has made, stands for the same
/// history.
pub fn entries_stay<D: Disk>()
    ensures { EntriesStay packed_form D FireLinks D.meaning }
{
    entry_batches_keep();
    insertions_lay();
    histories_go_on();
    batches_last::<D, FireLinks>();
}

/// So it is while a transaction takes its changes back: the same changes are still to be taken back.
pub fn entries_stay_midway<D: Disk, L: Links>()
    ensures { EntriesStayMidway packed_form D L D.meaning }
{
    entry_batches_keep();
    insertions_lay();
    batches_last::<D, L>();
}
