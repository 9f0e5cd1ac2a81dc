//! Small histories in which the machine is computed.

ghost use Rattle.mg_model.specs.ConflictScenarios.{OldSnapshot, RolledBack, NoWait, WaitsInVain};
ghost use Rattle.mg_model.specs.ConflictScenarios.{WaitsAndWrites, TwoWait, EachStatement};
ghost use Rattle.mg_model.specs.ConflictScenarios.{RetriedStatement, OneSnapshot};
ghost use Rattle.mg_model.specs.ConflictScenarios.{DeletedKey, KeysOfView};
ghost use Rattle.mg_model.specs.PointScenarios.{BackToSavepoint, UndoesMarks, MarkIsTakenBack};
ghost use Rattle.mg_model.specs.PointScenarios.{SavepointIsTakenBack};
ghost use Rattle.mg_model.specs.StateScenarios.{OnlyReads, IsDecided, IsDecidedAgainst, MakesTable};
ghost use Rattle.mg_model.specs.StateScenarios.{ClaimsRows, ClaimsTable, LastNumber};

/// Two transactions write one row.
pub fn writers_conflict()
    ensures old_snapshot { OldSnapshot }
    ensures rolled_back { RolledBack }
    ensures no_wait { NoWait }
    ensures waits_in_vain { WaitsInVain }
    ensures waits_and_writes { WaitsAndWrites }
    ensures two_wait { TwoWait }
{}

/// What a transaction sees of others' commits.
pub fn commits_are_seen()
    ensures each_statement { EachStatement }
    ensures retried_statement { RetriedStatement }
    ensures one_snapshot { OneSnapshot }
    ensures deleted_key { DeletedKey }
    ensures makes_table { MakesTable }
    ensures keys_of_view { KeysOfView }
{}

/// A transaction takes back a part of what it did.
pub fn points_take_back()
    ensures back_to_savepoint { BackToSavepoint }
    ensures undoes_marks { UndoesMarks }
    ensures mark_is_taken_back { MarkIsTakenBack }
    ensures savepoint_is_taken_back { SavepointIsTakenBack }
{}

/// What a transaction may do in its state, and what is in the way of a claim.
pub fn states_allow()
    ensures only_reads { OnlyReads }
    ensures is_decided { IsDecided }
    ensures is_decided_against { IsDecidedAgainst }
    ensures claims_rows { ClaimsRows }
    ensures claims_table { ClaimsTable }
    ensures last_number { LastNumber }
{}
