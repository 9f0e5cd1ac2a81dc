//! A keeper of records on which statements run.

ghost use Rattle.std.specs.Prelude.{◌≡◌, IfOk, true, not, None};
ghost use Rattle.mg_base.specs.declared.transaction.TxState.TheVariants.{Active};
ghost use Rattle.mg_model.specs.declared.opening.Opening.{Opening};
ghost use Rattle.mg_model.specs.History.{Entries};
ghost use Rattle.mg_model.specs.Machine.{state_of};
ghost use Rattle.mg_records.specs.Keeping.{FindsNoDamage};
ghost use Rattle.mg_records.specs.Sessions.{SessionsStay};
ghost use Rattle.mg_sql.specs.Lengths.{HasLengths};
ghost use Rattle.mg_statements.specs.Plain.{plain_of};
ghost use Rattle.mg_calls.specs.Frames.{Frames};
ghost use Rattle.mg_calls.specs.Quiet.{AreQuiet};
ghost use Rattle.mg_transcript.specs.Courses.{Course};
ghost use Rattle.mg_courses.specs.Carrying.{HoldsStill, LeavesHolding, RunsAreQuiet};
ghost use Rattle.mg_courses.specs.Running.{RunMeans, IsTested, StepDone, IsReadyIf, IsNearer, RunsStay, CoursesStay, refusal_tested, refusal_told, over_in, rests, runs_in_steps};

use mg_base::TxNo;
use mg_records::Records;
use mg_rows::StatementFault;
use mg_script::Reply;
use mg_statements::Statement;
use std::alloc::Global;

/// How a statement has ended.
#[derive(Debug, Drop)]
pub struct Ending {
    /// What it answers.
    pub reply: Reply,
    /// Its transaction has come to its end with it: it was committed or rolled back.
    pub over: bool,
}

/// What a step of a statement came to.
#[derive(Debug, Drop)]
pub enum Stepped {
    /// It goes on by a later step.
    More,
    /// It waits for this transaction, and then tries its next event again.
    Waits(TxNo),
    Ended(Ending),
}

impl Stepped {
    /// The statement goes on by a later step.
    pub fn is_more(&self) -> bool
        ensures { result ≡ not (rests self.now) }
    {
        matches!(self, Stepped::More)
    }
}

/// A keeper of records on which statements run, step by step.
pub trait Statements: Records {
    /// A statement that was tested, and is not at its end.
    type Run;

    ghost runs: { RunMeans Self Self.Run };

    /// Tests a statement that has looked, if it is one that looks, and begins it. No event is given.
    ///
    /// # Errors
    ///
    /// The first refusal of its tests, or a refusal from outside.
    fn test(
        &mut self,
        alloc: Global,
        t: TxNo,
        read_only: bool,
        s: Statement,
        size: u32,
    ) -> Result<Self::Run, StatementFault>
        requires steps { runs_in_steps (plain_of s) ≡ true }
        requires lengths { HasLengths (plain_of s) }
        requires size { Self.meaning.is_size self.old size ≡ true }
        ensures tests { (o : Opening) (h : Entries) → Self.meaning.stands self.old o h
            → state_of o h t.0 ≡ Active
            → IsTested Self.meaning runs self.new o h t read_only size (plain_of s) result }
        ensures ready { IfOk result (λ run. runs.is_ready self.new t run) }
        ensures frames { Frames Self.meaning self.old self.new t.0 (refusal_tested result) }
        ensures quiet { AreQuiet Self.meaning self.old self.new None };

    /// Makes a step of a statement.
    fn step(&mut self, alloc: Global, t: TxNo, run: &mut Self::Run) -> Stepped
        requires ready { runs.is_ready self.old t run.old }
        ensures steps { (o : Opening) (h : Entries) (course : Course) → Self.meaning.stands self.old o h
            → state_of o h t.0 ≡ Active → runs.is_at self.old o h t run.old course
            → StepDone Self.meaning runs self.new o h t course run.new result }
        ensures ready { IsReadyIf runs self.new t run.new result }
        ensures nearer { IsNearer runs self.old self.new t run.old run.new result }
        ensures frames { Frames Self.meaning self.old self.new t.0 (refusal_told result) }
        ensures crash { (o : Opening) (h : Entries) (course : Course) → Self.meaning.stands self.old o h
            → state_of o h t.0 ≡ Active → runs.is_at self.old o h t run.old course
            → LeavesHolding Self.meaning self.old self.new o h }
        ensures undamaged { (o : Opening) (h : Entries) (course : Course) → Self.meaning.stands self.old o h
            → state_of o h t.0 ≡ Active → runs.is_at self.old o h t run.old course
            → FindsNoDamage Self.meaning self.old self.new }
        ensures holds { HoldsStill Self.meaning self.old self.new }
        ensures sessions { SessionsStay Self.meaning self.old self.new None (over_in t.0 result) };

    ghost stay: { RunsStay Self.meaning runs };

    ghost courses: { CoursesStay Self.meaning runs };

    ghost no_commits: { RunsAreQuiet runs };
}
