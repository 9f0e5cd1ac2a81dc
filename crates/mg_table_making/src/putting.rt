//! A new table is put on the pages, and its changes are kept.

ghost use Rattle.std.specs.Prelude.{◌≤◌, MatchResult, length};
ghost use Rattle.mg_core.specs.Cores.{IsCore};
ghost use Rattle.mg_table_making.specs.Creating.{FailsPut, PutsTable};

use crate::keeping::{keep_each, retract_last};
use mg_base::{Disk, TxNo};
use mg_batches::unlawful;
use mg_core::Core;
use mg_model::Refusal;
use mg_space::SpaceFault;
use mg_table_batch::make_table;
use mg_value::{Key, MOST_COLUMNS, Name, Shape};

/// Puts a new table on the pages. What its keys were is kept first, and taken back where the pages refuse.
///
/// # Errors
///
/// `Memory`, or what the pages are refused for.
pub(crate) fn put_table<D: Disk>(
    core: &mut Core<D>,
    t: TxNo,
    name: &Name,
    shape: &Shape,
    keys: &[Key],
) -> Result<(), Refusal>
    requires core { IsCore D.meaning core.old }
    requires columns { length shape.now.columns ≤ MOST_COLUMNS }
    ensures core { IsCore D.meaning core.new }
    ensures puts { MatchResult result
        (λ _. PutsTable D.meaning core.old core.new t name.now shape.now keys.now)
        (FailsPut D.meaning core.old core.new t name.now shape.now keys.now) }
{
    let owner = core.catalog.pointer.0;
    if owner == 0 {
        return Err(core.refuse(SpaceFault::Damaged(unlawful())));
    }
    // First kept: want of memory then leaves the pages alone.
    match keep_each(&mut core.works, t, owner, keys) {
        Ok(()) => {}
        Err(_) => return Err(Refusal::Memory),
    }
    // Its new pages have no mark of a commit that was asked for.
    core.works.unask(t);
    match make_table(&mut core.store, &core.catalog, t, name, shape) {
        Ok(()) => {
            // A table of this name that was given and then taken back began at another page.
            core.works.forget_tables(t);
            Ok(())
        }
        Err(fault) => {
            retract_last(&mut core.works, t, keys.len());
            Err(core.refuse(fault))
        }
    }
}
