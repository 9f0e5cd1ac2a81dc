//! A statement at its end.

ghost use Rattle.std.specs.Prelude.{◌≡◌, Err};
ghost use Rattle.mg_rows.specs.declared.statement_fault.StatementFault.TheVariants as faults;
ghost use Rattle.mg_exec.specs.Phases.{ended as ended_by, rolled_back as rolled_back_by};

use crate::phase::{Phase, Step, Turn};
use mg_model::Refusal;
use mg_rows::StatementFault;

/// A statement that is at its end, with this answer.
pub(crate) fn ended<P: Drop>(answer: Result<Step, StatementFault>) -> Turn<P>
    ensures { result ≡ ended_by answer }
{
    Turn {
        phase: Phase::Ended,
        answer,
    }
}

/// A statement that is at its end, since the keeper refused it.
pub(crate) fn refused<P: Drop>(refusal: Refusal) -> Turn<P>
    ensures { result ≡ ended_by (Err (faults.Engine refusal)) }
{
    ended(Err(StatementFault::Engine(refusal)))
}

/// A statement that is at its end, since it could not be undone: its transaction is rolled back.
pub(crate) fn rolled_back<P: Drop>(refusal: Refusal) -> Turn<P>
    ensures { result ≡ rolled_back_by refusal }
{
    Turn {
        phase: Phase::RolledBack,
        answer: Err(StatementFault::Engine(refusal)),
    }
}
