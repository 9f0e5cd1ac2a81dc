//! A record at a place of a table is collected.

ghost use Rattle.mg_works.specs.Works.{MayBeGiven};
ghost use Rattle.mg_core.specs.Cores.{IsCore};
ghost use Rattle.mg_core_collecting.specs.Places.{CollectsPlace};

use crate::settled::collect_settled;
use mg_base::{Disk, RecId, TxNo};
use mg_core::{Core, StatesOf};
use mg_model::{Refusal, Table};

/// Collects the record at a place of a table, to which an active transaction's reading has come: what nobody needs of its
/// versions goes, each in a batch of its own. True exactly where something went.
///
/// It is no event. No page is taken, and no memory is held for a version.
///
/// # Errors
///
/// `Offline` exactly where a page write has failed before; else `NotActive` exactly where the transaction isn't active;
/// `DiskRead`, `Damaged` and `Memory` as the record is read; `DiskWrite` where a batch has pages written out before it.
/// What has gone by then stays gone.
pub fn collect_place<D: Disk>(
    core: &mut Core<D>,
    t: TxNo,
    table: &Table,
    rec: RecId,
) -> Result<bool, Refusal>
    requires core { IsCore D.meaning core.old }
    requires may { MayBeGiven table.now }
    ensures core { IsCore D.meaning core.new }
    ensures collects { CollectsPlace D.meaning core.old core.new t table.now rec result }
{
    match core.begin_call(t) {
        Ok(()) => {}
        Err(refusal) => return Err(refusal),
    }
    let states = StatesOf::new(&core.list);
    match collect_settled(&mut core.store, table, rec, &states, &core.live) {
        Ok(gone) => Ok(gone),
        Err(fault) => Err(core.refuse(fault)),
    }
}
