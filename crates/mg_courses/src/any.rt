//! The statements of `mg_exec` run on any keeper of records.

ghost use Rattle.std.specs.Prelude.{◌≡◌, Err};
ghost use Rattle.mg_model.specs.declared.refusal.Refusal.TheVariants as refusals;
ghost use Rattle.mg_rows.specs.declared.statement_fault.StatementFault.TheVariants.{Engine};
ghost use Rattle.mg_exec.specs.Phases.{is_over as is_over_at};
ghost use Rattle.mg_courses.specs.AnyRuns.{any_runs, ended_at, stepped_at};
ghost use Rattle.mg_courses.specs.AnyLaws.{courses_stay, runs_are_quiet, runs_stay};

use crate::statements::{Ending, Statements, Stepped};
use mg_base::TxNo;
use mg_exec::{Phase, Run, Step};
use mg_model::Refusal;
use mg_records::Records;
use mg_rows::StatementFault;
use mg_script::Reply;
use mg_statements::{Statement, let_go};
use std::alloc::Global;

/// Tells whether a statement is at its end.
fn is_over<P>(phase: &Phase<P>) -> bool
    ensures { result ≡ is_over_at phase.now }
{
    matches!(phase, Phase::Ended | Phase::RolledBack)
}

/// How a statement has ended that stands here.
fn ended<P>(phase: &Phase<P>, reply: Reply) -> Stepped
    ensures { result ≡ ended_at phase.now reply }
{
    Stepped::Ended(Ending {
        reply,
        over: matches!(phase, Phase::RolledBack),
    })
}

/// What a step came to, by where the statement stands after it.
fn stepped<P>(phase: &Phase<P>, answer: Result<Step, StatementFault>) -> Stepped
    ensures { result ≡ stepped_at phase.now answer }
{
    match answer {
        Ok(Step::More) => Stepped::More,
        Ok(Step::Done(outcome)) => ended(phase, Reply::Ok(outcome)),
        Err(StatementFault::Engine(Refusal::Waits { on })) => waits(phase, on),
        Err(fault) => ended(phase, Reply::No(fault)),
    }
}

// A statement that is not at its end waits.
fn waits<P>(phase: &Phase<P>, on: TxNo) -> Stepped
    ensures { result ≡ stepped_at phase.now (Err (Engine (refusals.Waits on))) }
{
    if is_over(phase) {
        return ended(
            phase,
            Reply::No(StatementFault::Engine(Refusal::Waits { on })),
        );
    }
    Stepped::Waits(on)
}

impl<R: Records> Statements for R
where
    R::Place: Drop,
{
    type Run = Run<R>;

    ghost runs = { any_runs R.meaning };

    fn test(
        &mut self,
        alloc: Global,
        t: TxNo,
        read_only: bool,
        s: Statement,
        size: u32,
    ) -> Result<Run<R>, StatementFault> {
        let run = Run::test(self, alloc, t, read_only, &s, size);
        let_go(s);
        run
    }

    fn step(&mut self, _alloc: Global, _t: TxNo, run: &mut Run<R>) -> Stepped {
        let answer = run.step(self);
        stepped(&run.phase, answer)
    }

    ghost stay = { runs_stay R.meaning };

    ghost courses = { courses_stay R.meaning };

    ghost no_commits = { runs_are_quiet R.meaning };
}
