//! What the clauses of the calls give together. There is no program here: the function does nothing, and its contract is
//! a law.

ghost use Rattle.mg_model.specs.declared.event.Event.{Event};
ghost use Rattle.mg_records.specs.Answered.{EndsAreAnswered, StepsAreAnswered};
ghost use Rattle.std.specs.Prelude.{Bool};

use crate::Records;

/// Where a transaction is active, no page write has failed before and the disk's count of faults doesn't rise, its commit
/// is answered Ok: the asking for it, and each of its steps; so are its end and its rolling back, where their room is taken
/// when the transaction begins.
pub fn commits_are_answered<R: Records>()
    ensures asks { StepsAreAnswered R.meaning (Unit {0}) }
    ensures steps { StepsAreAnswered R.meaning Bool }
    ensures ends { EndsAreAnswered R.meaning Event.Commit }
    ensures rollbacks { EndsAreAnswered R.meaning Event.Rollback }
{}
