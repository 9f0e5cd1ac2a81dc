//! What a call of an engine tells of the disk's faults. Each function does nothing: its contract is the law.

ghost use Rattle.mg_engine_change_laws.specs.faults.Told.{AsksTell, BeginsTell, CommitsTell, EventsTell, MakingsTell, MarksTell, PageWritesTell, PointsTell, RollbacksTell, SavepointsTell, StepsTell, TableMarksTell, TableSavepointsTell, TablesTell, WaitsTell, WalksTell, WritesTell};

use mg_base::Disk;

/// Transactions begin.
pub fn begins_tell_faults<D: Disk>()
    ensures { BeginsTell D D.meaning }
{}

/// Events that change what is in memory alone.
pub fn events_tell_faults<D: Disk>()
    ensures waits { WaitsTell D D.meaning }
    ensures looks { EventsTell D D.meaning }
    ensures points { PointsTell D D.meaning }
    ensures rollbacks { RollbacksTell D D.meaning }
{}

/// Tables by their names, and walks over their records.
pub fn readings_tell_faults<D: Disk>()
    ensures tables { TablesTell D D.meaning }
    ensures walks { WalksTell D D.meaning }
{}

/// Rows that are written, and tables that are made.
pub fn changes_tell_faults<D: Disk>()
    ensures writes { WritesTell D D.meaning }
    ensures makings { MakingsTell D D.meaning }
{}

/// Transactions that are taken back, also over tables that they have made.
pub fn backs_tell_faults<D: Disk>()
    ensures marks { MarksTell D D.meaning }
    ensures savepoints { SavepointsTell D D.meaning }
    ensures table_marks { TableMarksTell D D.meaning }
    ensures table_savepoints { TableSavepointsTell D D.meaning }
{}

/// Commits end.
pub fn commits_tell_faults<D: Disk>()
    ensures { CommitsTell D D.meaning }
{}

/// Page writes, of a commit and between calls.
pub fn page_writes_tell_faults<D: Disk>()
    ensures asks { AsksTell D D.meaning }
    ensures steps { StepsTell D D.meaning }
    ensures pages { PageWritesTell D D.meaning }
{}
