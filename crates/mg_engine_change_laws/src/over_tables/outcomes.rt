//! What the calls of the core that take a transaction back over tables owe a keeper of records. Each function does nothing:
//! its contract is the laws.

ghost use Rattle.mg_engine_change_laws.specs.tables_back.OverOutcomes.{MarksGiveOver, RefusalsGiveOver, SavepointsGiveOver};

use crate::{backs_are_known, engines_go_over, rows_are_given};
use mg_base::Disk;
use mg_engine_step_laws::rows_go_on;
use mg_space::FireLinks;

/// Whatever refuses such a call, the history machine has the event for it.
pub fn refusals_give_over<D: Disk, P>()
    ensures { RefusalsGiveOver D P D.meaning }
{
    backs_are_known::<D, P>();
    rows_are_given();
    rows_go_on::<D, FireLinks>();
}

/// A transaction is taken back to its last mark, or to its last savepoint of a name, or it is not.
pub fn backs_give_over<D: Disk, P>()
    ensures marks { MarksGiveOver D P D.meaning }
    ensures savepoints { SavepointsGiveOver D P D.meaning }
{
    backs_are_known::<D, P>();
    refusals_give_over::<D, P>();
    engines_go_over::<D>();
}
