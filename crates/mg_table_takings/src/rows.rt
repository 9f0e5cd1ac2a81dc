//! The rows of the catalog are taken out one after another, and a fault on the pages is told and counted.

ghost use Rattle.std.specs.Prelude.{◌≡◌, MatchResult, None, OnOk};
ghost use Rattle.mg_core.specs.Cores.{IsCore};
ghost use Rattle.mg_table_takings.specs.Takings.{FailsRows, FailsTheRow, TakesRows, TakesTheRow};

use mg_base::{Disk, TxNo};
use mg_core::{Core, StatesOf};
use mg_model::Refusal;
use mg_table_unmaking::take_row_out;
use mg_value::{Key, Value};

/// Takes the row of a key out of the catalog, in a batch of its own.
///
/// # Errors
///
/// What `take_row_out` of mg_table_unmaking is refused for.
fn take_row<D: Disk>(core: &mut Core<D>, t: TxNo, key: &Value) -> Result<(), Refusal>
    requires core { IsCore D.meaning core.old }
    ensures core { IsCore D.meaning core.new }
    ensures list { core.new.list ≡ core.old.list }
    ensures works { core.new.works ≡ core.old.works }
    ensures takes { MatchResult result
        (λ _. TakesTheRow D.meaning core.old core.new t.0 key.now)
        (FailsTheRow D.meaning core.old core.new t.0 key.now) }
{
    let states = StatesOf::new(&core.list);
    match take_row_out(&mut core.store, &core.catalog, key, &states, &core.live, t) {
        Ok(()) => Ok(()),
        Err(fault) => Err(core.refuse(fault)),
    }
}

/// Takes the rows of keys out of the catalog, one after another, each in a batch of its own: two rows in one could close a
/// cycle of page writes.
///
/// # Errors
///
/// As `take_row`, at the first key whose row is not taken out.
pub(crate) fn take_rows<D: Disk>(core: &mut Core<D>, t: TxNo, keys: &[Key]) -> Result<(), Refusal>
    requires core { IsCore D.meaning core.old }
    ensures core { IsCore D.meaning core.new }
    ensures list { core.new.list ≡ core.old.list }
    ensures works { core.new.works ≡ core.old.works }
    ensures takes { MatchResult result
        (λ _. TakesRows D.meaning t.0 keys.now core.old core.new)
        (λ refusal. FailsRows D.meaning t.0 refusal keys.now core.old core.new) }
{
    let mut rest = keys;
    while let Some((key, later)) = rest.split_first() {
        match take_row(core, t, key.value()) {
            Ok(()) => {}
            Err(refusal) => return Err(refusal),
        }
        rest = later;
    }
    Ok(())
}
