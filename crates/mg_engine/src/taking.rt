//! A transaction is taken back to a point.

ghost use Rattle.mg_core.specs.Cores.{IsCore};
ghost use Rattle.mg_engine_change_laws.specs.memory.Notes.{AreCounts};
ghost use Rattle.mg_engine_change_laws.specs.backs.Outcomes.{IsBack, IsUndone};
ghost use Rattle.mg_engine_change_laws.specs.faults.Told.{TellsFaults};
ghost use Rattle.mg_no_damage_laws.specs.Stands.{DamageStands};
ghost use Rattle.mg_no_damage_laws.specs.FewPages.{RoomStandsBack};
ghost use Rattle.mg_model.specs.declared.change.Point.TheVariants.{LastMark, SavepointNamed};
ghost use Rattle.mg_records.specs.Keeping.{refusal_in};
ghost use Rattle.mg_engine.specs.Engines.{IsEngine};
ghost use Rattle.mg_engine.specs.Places.{places};

use mg_base::{Disk, TxNo};
use mg_core::{Core, Place};
use mg_engine_change_laws::{backs_give, backs_give_over, backs_tell_faults};
use mg_model::Refusal;
use mg_no_damage_laws::{
    backs_meet_no_damage, backs_over_meet_no_damage, backs_over_take_few, backs_take_few,
};
use mg_table_takings::{back_over_tables, undo_tables_to_mark};
use mg_taking_back::{back_to, takes_tables_to_mark, takes_tables_to_savepoint, undo_mark};
use mg_value::Name;

/// Takes a transaction back to its last mark: key by key, and where it has made tables since, with their rows of the
/// catalog in one batch.
///
/// # Errors
///
/// As `Engine::undo_mark`.
pub(crate) fn take_to_mark<D: Disk>(core: &mut Core<D>, t: TxNo) -> Result<(), Refusal>
    requires engine { IsEngine D.meaning core.old }
    requires counts { AreCounts core.old }
    ensures core { IsCore D.meaning core.new }
    ensures undone { IsUndone D.meaning places core.old core.new t result }
    ensures told { TellsFaults D.meaning core.old core.new (refusal_in result) }
    ensures undamaged { DamageStands D.meaning core.old core.new }
    ensures room { RoomStandsBack D.meaning core.old core.new (refusal_in result) t.0 LastMark }
{
    backs_give::<D, Place>();
    backs_give_over::<D, Place>();
    backs_tell_faults::<D>();
    backs_meet_no_damage::<D>();
    backs_over_meet_no_damage::<D>();
    backs_take_few::<D>();
    backs_over_take_few::<D>();
    if takes_tables_to_mark(core, t) {
        return undo_tables_to_mark(core, t);
    }
    undo_mark(core, t)
}

/// Takes a transaction back to its last savepoint of a name, as `take_to_mark` does to a mark.
///
/// # Errors
///
/// As `Engine::undo_mark`.
pub(crate) fn take_to_savepoint<D: Disk>(
    core: &mut Core<D>,
    t: TxNo,
    name: &Name,
) -> Result<bool, Refusal>
    requires engine { IsEngine D.meaning core.old }
    requires counts { AreCounts core.old }
    ensures core { IsCore D.meaning core.new }
    ensures back { IsBack D.meaning places core.old core.new t name.now result }
    ensures told { TellsFaults D.meaning core.old core.new (refusal_in result) }
    ensures undamaged { DamageStands D.meaning core.old core.new }
    ensures room { RoomStandsBack D.meaning core.old core.new (refusal_in result) t.0 (SavepointNamed name.now) }
{
    backs_give::<D, Place>();
    backs_give_over::<D, Place>();
    backs_tell_faults::<D>();
    backs_meet_no_damage::<D>();
    backs_over_meet_no_damage::<D>();
    backs_take_few::<D>();
    backs_over_take_few::<D>();
    if takes_tables_to_savepoint(core, t, name) {
        return back_over_tables(core, t, name);
    }
    back_to(core, t, name)
}
