//! A transaction makes a table.

ghost use Rattle.std.specs.Prelude.{◌≤◌, MatchResult, length};
ghost use Rattle.mg_core.specs.Cores.{IsCore};
ghost use Rattle.mg_table_making.specs.Creating.{CreatesTable, FailsCreation};

use crate::keys::{free_keys, keys_for};
use crate::putting::put_table;
use mg_base::{Disk, TxNo};
use mg_core::Core;
use mg_model::Refusal;
use mg_value::{MOST_COLUMNS, Name, Shape};

/// Makes a table: its first pointer page, and the rows of the catalog that say it, in one batch.
///
/// A column's row is never in the way by itself: it comes in one batch with its table's row, and is taken back before
/// it, so whoever is in the way is met at the table's row.
///
/// The tables that were given to the transaction are no longer known then: a table of this name that it made before,
/// and took back, began at another page.
///
/// # Errors
///
/// As every event: `Offline`, `NotActive`; then the first that applies: `ReadOnly` by the mode; `DuplicateKey` where
/// the transaction sees a row of the table; `UpdateConflict`, `LockConflict`, `Waits`, `Deadlock` and `InLimbo` by the
/// record that speaks for that row's key; `Damaged` at `Catalog`, under the catalog's first pointer page, where a
/// record speaks for it still, or for the key of a column's row: found is the row's place among those of the table,
/// and wanted their number. Or what the pages are refused for, or `Memory`. Whom the transaction waits for has
/// changed then, what was read, written out and counted, and no row.
pub fn create_table<D: Disk>(
    core: &mut Core<D>,
    t: TxNo,
    name: &Name,
    shape: &Shape,
) -> Result<(), Refusal>
    requires core { IsCore D.meaning core.old }
    requires columns { length shape.now.columns ≤ MOST_COLUMNS }
    ensures core { IsCore D.meaning core.new }
    ensures creates { MatchResult result
        (λ _. CreatesTable D.meaning core.old core.new t name.now shape.now)
        (FailsCreation D.meaning core.old core.new t name.now shape.now) }
{
    match core.begin_event(t) {
        Ok(()) => {}
        Err(refusal) => return Err(refusal),
    }
    let wait = core.writer(t)?;
    let keys = keys_for(core, name, shape)?;
    free_keys(core, t, wait, &keys)?;
    put_table(core, t, name, shape, &keys)
}
