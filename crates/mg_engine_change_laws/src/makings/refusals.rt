//! A table is refused before its rows are put.

ghost use Rattle.mg_engine_change_laws.specs.tables.MakingRefusals.{CreationsAreRefused};

use mg_base::Disk;
use mg_engine_step_laws::{batches_last, entries_go_on, keys_are_answered, standings_go_on};
use mg_lasting_laws::crashes_hold;
use mg_model::histories_go_on;
use mg_space::FireLinks;
use mg_waits::{notes_follow_the_machine, verdicts_are_the_machines};

/// A table that is refused before its rows are put: the event of its own row is given with the refusal.
pub fn creations_are_refused<D: Disk, P>()
    ensures { CreationsAreRefused D P D.meaning }
{
    keys_are_answered();
    entries_go_on::<D, FireLinks>();
    standings_go_on();
    crashes_hold();
    histories_go_on();
    batches_last::<D, FireLinks>();
    verdicts_are_the_machines();
    notes_follow_the_machine();
}
