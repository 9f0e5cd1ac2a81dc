//! Whether a transaction that is taken back takes back tables that it has made.

ghost use Rattle.mg_model.specs.declared.change.Point.TheVariants.{LastMark, SavepointNamed};
ghost use Rattle.mg_core.specs.Cores.{IsCore};
ghost use Rattle.mg_taking_back.specs.Tables.{TellsTables};

use mg_base::{Disk, TxNo};
use mg_core::Core;
use mg_value::Name;

/// Tells whether a transaction that is taken back to its last mark takes back changes of the catalog. It takes no
/// memory, and looks at what has been changed since the mark alone.
pub fn takes_tables_to_mark<D: Disk>(core: &Core<D>, t: TxNo) -> bool
    requires core { IsCore D.meaning core.now }
    ensures { TellsTables core.now t.0 LastMark result }
{
    match core.works.work(t) {
        Some(work) => work.touches(core.catalog.pointer.0),
        None => false,
    }
}

/// Tells whether a transaction that is taken back to its last savepoint of a name takes back changes of the catalog, as
/// `takes_tables_to_mark`.
pub fn takes_tables_to_savepoint<D: Disk>(core: &Core<D>, t: TxNo, name: &Name) -> bool
    requires core { IsCore D.meaning core.now }
    ensures { TellsTables core.now t.0 (SavepointNamed name.now) result }
{
    match core.works.work(t) {
        Some(work) => work.touches_since(name, core.catalog.pointer.0),
        None => false,
    }
}
