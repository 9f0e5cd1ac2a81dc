//! What calls of an engine ask of the disk, and what those are refused for that take no memory. Each function does
//! nothing: its contract is the law.

ghost use Rattle.mg_engine_change_laws.specs.faults.Asked.{AskingAsksNone, AskingTakesNothing, CommitsTakeNothing, FoundsTakeNoPage, LooksAskNone, LooksTakeNoPage, PageWritesAskOne, PageWritesTakeNothing, PointsAskNone, PointsTakeNoPage, RollbacksAskNone, RollbacksTakeNothing, StepsAskOne, StepsTakeNothing, TablesAskNone, WaitsAskNone, WalksAskNone};

use mg_base::Disk;

/// Events that change what is in memory alone ask for no page write.
pub fn events_write_none<D: Disk>()
    ensures looks { LooksAskNone D D.meaning }
    ensures waits { WaitsAskNone D D.meaning }
    ensures points { PointsAskNone D D.meaning }
    ensures rollbacks { RollbacksAskNone D D.meaning }
{}

/// Tables by their names, and walks over their records, do neither.
pub fn readings_write_none<D: Disk>()
    ensures tables { TablesAskNone D D.meaning }
    ensures walks { WalksAskNone D D.meaning }
{}

/// Nor does the asking for a commit; a step of one asks for one page write, and so does a page write between calls.
pub fn page_writes_ask_one<D: Disk>()
    ensures asking { AskingAsksNone D D.meaning }
    ensures steps { StepsAskOne D D.meaning }
    ensures pages { PageWritesAskOne D D.meaning }
{}

/// Events that change what is in memory alone are not refused for want of pages.
pub fn events_take_no_page<D: Disk>()
    ensures looks { LooksTakeNoPage D D.meaning }
    ensures founds { FoundsTakeNoPage D D.meaning }
    ensures points { PointsTakeNoPage D D.meaning }
{}

/// Commits, rollings back and page writes take no memory and no page, and read none.
pub fn commits_want_nothing<D: Disk>()
    ensures asking { AskingTakesNothing D D.meaning }
    ensures steps { StepsTakeNothing D D.meaning }
    ensures ends { CommitsTakeNothing D D.meaning }
    ensures rollbacks { RollbacksTakeNothing D D.meaning }
    ensures pages { PageWritesTakeNothing D D.meaning }
{}
