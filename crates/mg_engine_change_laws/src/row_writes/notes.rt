//! A table is kept. The function does nothing: its contract is the laws.

ghost use Rattle.mg_engine_change_laws.specs.memory.KeptTables.{NotedTablesAreKept, NotedWorksStay, NotesStay};

use mg_base::Disk;

/// A table that is kept as one that is written into is found by its first page, and changes nothing that an engine
/// stands for.
pub fn noted_tables_are_quiet<D: Disk>()
    ensures works { NotedWorksStay }
    ensures kept { NotedTablesAreKept }
    ensures stands { NotesStay D D.meaning }
{}
