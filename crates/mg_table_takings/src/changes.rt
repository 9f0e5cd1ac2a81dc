//! The changes of other tables than the catalog are taken back.

ghost use Rattle.std.specs.Prelude.{◌≡◌, MatchResult, None, OnOk};
ghost use Rattle.mg_core.specs.Cores.{IsCore};
ghost use Rattle.mg_table_takings.specs.Takings.{StopsOthers, TakesOthers};

use mg_base::{Disk, TxNo};
use mg_core::Core;
use mg_model::Refusal;
use mg_taking_back::take_key;
use mg_undo::Undo;

/// Takes back all that is given from here on, but for the catalog's rows.
///
/// # Errors
///
/// As `take_key` of mg_taking_back, at the first key that is not taken back.
pub(crate) fn take_others<D: Disk>(
    core: &mut Core<D>,
    t: TxNo,
    undo: &mut Undo,
) -> Result<(), Refusal>
    requires core { IsCore D.meaning core.old }
    requires online { core.old.store.offline ≡ None }
    ensures core { IsCore D.meaning core.new }
    ensures list { core.new.list ≡ core.old.list }
    ensures works { core.new.works ≡ core.old.works }
    ensures online { OnOk result (core.new.store.offline ≡ None) }
    ensures takes { MatchResult result
        (λ _. TakesOthers D.meaning core.old core.new t.0 undo.old undo.new)
        (StopsOthers D.meaning core.old core.new t.0 undo.old) }
{
    while let Some(change) = undo.take_back() {
        let (table, key, was) = change;
        if table != core.catalog.pointer.0 {
            match take_key(core, t, table, key, was) {
                Ok(()) => {}
                Err(refusal) => return Err(refusal),
            }
        }
    }
    Ok(())
}
