//! The laws of the history machine. Each function does nothing: its contract is a law, so that
//! another crate can cite it.

ghost use Rattle.std.specs.Prelude.{◌≡◌, codes};
ghost use Rattle.mg_value.specs.declared.shape.TheConstants.{MOST_COLUMNS};
ghost use Rattle.mg_model.specs.Catalog.{catalog_name};
ghost use Rattle.mg_model.specs.Constants.{NewRows};
ghost use Rattle.mg_model.specs.Promises.{SnapshotsSee, SnapshotsSaw};
ghost use Rattle.mg_model.specs.Promises.{InsertIsFine, ChangeIsFine, EraseIsFine};
ghost use Rattle.mg_model.specs.Laws.{ViewStands, SnapshotStands, OthersLeaveIt, DeedsFollow};
ghost use Rattle.mg_model.specs.Laws.{IsDrawnOnce, OpeningsBegin, NewIsOpening, GoesOnLegally};
ghost use Rattle.mg_model.specs.Laws.{OnlyCommitsCount};
ghost use Rattle.mg_model.specs.Laws.{BaseIsCut, CommittedOutlast, DurableIsAll, LimboOutlasts, LimboChangesOutlast};
ghost use Rattle.mg_model.specs.Laws.{ReadsGiven, ReadsMade, ReadsWritten, ReadsOwn, ReadsBase};
ghost use Rattle.mg_model.specs.Laws.{OwnIsRestored, ViewIsRestored, WritersTakeTurns, WaitsEnd};
ghost use Rattle.mg_model.specs.Laws.{ViewIsSettled, CommittedStays, DeadStays};
ghost use Rattle.mg_model.specs.Laws.{ObstacleIsThere, NoneIsThere};
ghost use Rattle.mg_model.specs.Laws.{RowsAscend, RowsAreThose, UpperDecides};

use crate::{CATALOG, MOST_TRANSACTIONS};

/// What a transaction sees that reads by one snapshot: the database just before it began, with its
/// own changes over it.
pub fn snapshots_see()
    ensures sees { SnapshotsSee }
    ensures saw { SnapshotsSaw }
{}

/// When a change of a key is answered Fine: where the transaction may write the key, and sees a row
/// with it, or none where the row is new.
pub fn changes_are_fine()
    ensures insert { InsertIsFine }
    ensures change { ChangeIsFine }
    ensures erase { EraseIsFine }
{}

/// A transaction's view changes by its own events alone.
pub fn views_stand()
    ensures view { ViewStands }
    ensures snapshot { SnapshotStands }
    ensures others { OthersLeaveIt }
    ensures deeds { DeedsFollow }
    ensures drawn_once { IsDrawnOnce }
{}

/// There are openings and legal histories.
pub fn histories_go_on()
    ensures begins { OpeningsBegin }
    ensures opening { NewIsOpening }
    ensures legal { GoesOnLegally }
{}

/// The database changes by commits alone.
pub fn commits_count()
    ensures database { OnlyCommitsCount }
    ensures cut { BaseIsCut }
{}

/// What outlasts a crash after the last durable event is all there is.
pub fn durables_outlast()
    ensures database { DurableIsAll }
    ensures committed { CommittedOutlast }
    ensures limbo { LimboOutlasts }
    ensures changes { LimboChangesOutlast }
{}

/// What a transaction wrote and didn't take back it reads.
pub fn writes_are_read()
    ensures given { ReadsGiven }
    ensures made { ReadsMade }
    ensures written { ReadsWritten }
    ensures own { ReadsOwn }
    ensures other { ReadsBase }
{}

/// Taking back to a mark or a savepoint gives what was before it.
pub fn points_restore()
    ensures own { OwnIsRestored }
    ensures view { ViewIsRestored }
{}

/// Transactions that wrote one key didn't overlap.
pub fn writers_take_turns()
    ensures { WritersTakeTurns }
{}

/// What was rolled back is in no other view.
pub fn rollbacks_are_unseen()
    ensures view { ViewIsSettled }
    ensures committed { CommittedStays }
    ensures dead { DeadStays }
{}

/// The numbers and texts that a file or a user sees.
pub fn constants_are_those()
    ensures transactions { MOST_TRANSACTIONS ≡ 1_000_000_000 }
    ensures columns { MOST_COLUMNS ≡ 64 }
    ensures catalog { CATALOG.now ≡ codes "MG$CATALOG" }
    ensures named { CATALOG.now ≡ catalog_name }
    ensures rows { NewRows }
{}

/// The waits have no cycle.
pub fn waits_end()
    ensures { WaitsEnd }
{}

/// Who is an obstacle.
pub fn obstacles_are_there()
    ensures found { ObstacleIsThere }
    ensures none { NoneIsThere }
{}

/// What rows a list of changes has.
pub fn rows_are_those()
    ensures ascend { RowsAscend }
    ensures same { RowsAreThose }
    ensures upper { UpperDecides }
{}
