//! A keeper of records whose changed pages can be written one by one, and where what statements come to is collected.

ghost use Rattle.std.specs.Prelude.{◌≡◌, true, None, Some, IfErr, OnOk};
ghost use Rattle.mg_records.specs.Crashing.{LeavesQuietly};
ghost use Rattle.mg_records.specs.Keeping.{FaultsAreTold, MeetsNoDamage, Reads, refusal_in};
ghost use Rattle.mg_records.specs.Sessions.{SessionsStay};
ghost use Rattle.mg_tending.specs.Collecting.{CollectsEach};
ghost use Rattle.mg_tending.specs.Tending.{WritesAPage};
ghost use Rattle.mg_exec.specs.Progress.{still_at};
ghost use Rattle.mg_exec.specs.Running.{place_at, table_at};
ghost use Rattle.mg_transcript.specs.Steps.{is_outside};
ghost use Rattle.mg_courses.specs.AnyRuns.{IsGoing, any_runs};
ghost use Rattle.mg_courses.specs.Aside.{IsAside, IsOutsideFor, StopsSo, VisitedIsCollected};

use crate::statements::Statements;
use mg_base::TxNo;
use mg_exec::Run;
use mg_model::{Refusal, Table};
use mg_tending::{Collects, PageWrites};

/// A keeper of records on which statements run, whose changed pages can be written one by one, and that collects what
/// statements come to.
pub trait Tends: Statements {
    /// Writes one changed page. It answers false exactly where no page is changed. It takes no memory.
    fn write_page(&mut self) -> Result<bool, Refusal>
        ensures one { WritesAPage Self.meaning self.old self.new result }
        ensures outside { IfErr result (λ refusal. is_outside refusal ≡ true) }
        ensures reads { Reads Self.meaning self.old self.new (refusal_in result) None }
        ensures told { FaultsAreTold Self.meaning self.old self.new (refusal_in result) }
        ensures undamaged { MeetsNoDamage Self.meaning self.old self.new }
        ensures crash { LeavesQuietly Self.meaning self.old self.new }
        ensures sessions { SessionsStay Self.meaning self.old self.new None None };

    /// What a statement visited last is collected.
    ghost collected: { Self → Self → Self.Run → Type 0 };

    /// Collects the record that a statement visited last, as long as it reads a table; any other statement is let be. It is
    /// nobody's event, and the statement is as far from its end.
    ///
    /// # Errors
    ///
    /// From outside, and of a statement that has only begun: it may end by that as by the refusal of a visit.
    fn collect_visited(&mut self, t: TxNo, run: &Self::Run) -> Result<(), Refusal>
        requires ready { Self.runs.is_ready self.old t run.now }
        ensures collects { OnOk result (collected self.old self.new run.now) }
        ensures aside { IsAside Self.meaning self.old self.new (refusal_in result) }
        ensures far { Self.runs.still self.new t run.now ≡ Self.runs.still self.old t run.now }
        ensures stops { StopsSo Self.meaning Self.runs self.old t run.now result };

    /// Each record of each committed table is collected.
    ghost each_collected: { Self → Self → Type 0 };

    /// Collects each record of each committed table. It is nobody's event.
    ///
    /// # Errors
    ///
    /// From outside, at the first record that is not collected.
    fn collect_all(&mut self) -> Result<(), Refusal>
        ensures collects { OnOk result (each_collected self.old self.new) }
        ensures aside { IsAside Self.meaning self.old self.new (refusal_in result) }
        ensures outside { IsOutsideFor Self.meaning self.old result };
}

// Collects the record that a statement visited last, if it has visited one.
fn collect_last<R: Collects>(r: &mut R, t: TxNo, run: &Run<R>) -> Result<(), Refusal>
where
    R::Place: Drop,
    requires ready { IsGoing R.meaning r.old t run.now }
    ensures collects { OnOk result (VisitedIsCollected R.meaning R.collecting r.old r.new run.now) }
    ensures aside { IsAside R.meaning r.old r.new (refusal_in result) }
    ensures far { still_at R.meaning r.new t.0 run.now.phase ≡ still_at R.meaning r.old t.0 run.now.phase }
    ensures stops { StopsSo R.meaning (any_runs R.meaning) r.old t run.now result }
{
    match run.table() {
        Some(table) => collect_in(r, t, run, table),
        None => Ok(()),
    }
}

// The same, in the statement's table.
fn collect_in<R: Collects>(r: &mut R, t: TxNo, run: &Run<R>, table: &Table) -> Result<(), Refusal>
where
    R::Place: Drop,
    requires ready { IsGoing R.meaning r.old t run.now }
    requires its { table_at run.now.phase ≡ Some table.now }
    ensures collects { OnOk result (VisitedIsCollected R.meaning R.collecting r.old r.new run.now) }
    ensures aside { IsAside R.meaning r.old r.new (refusal_in result) }
    ensures far { still_at R.meaning r.new t.0 run.now.phase ≡ still_at R.meaning r.old t.0 run.now.phase }
    ensures stops { StopsSo R.meaning (any_runs R.meaning) r.old t run.now result }
{
    match run.place() {
        Some(place) => collect_at(r, t, run, table, place),
        None => Ok(()),
    }
}

// The same, at the place that it visited last.
fn collect_at<R: Collects>(
    r: &mut R,
    t: TxNo,
    run: &Run<R>,
    table: &Table,
    place: &R::Place,
) -> Result<(), Refusal>
where
    R::Place: Drop,
    requires ready { IsGoing R.meaning r.old t run.now }
    requires its { table_at run.now.phase ≡ Some table.now }
    requires at { place_at run.now.phase ≡ Some place.now }
    ensures collects { OnOk result (VisitedIsCollected R.meaning R.collecting r.old r.new run.now) }
    ensures aside { IsAside R.meaning r.old r.new (refusal_in result) }
    ensures far { still_at R.meaning r.new t.0 run.now.phase ≡ still_at R.meaning r.old t.0 run.now.phase }
    ensures stops { StopsSo R.meaning (any_runs R.meaning) r.old t run.now result }
{
    match r.collect_place(t, table, place) {
        Ok(_) => Ok(()),
        Err(refusal) => Err(refusal),
    }
}

impl<R: PageWrites + Collects> Tends for R
where
    R::Place: Drop,
{
    #[tactic(auto, using(crate::proofs::WorkLemmas::written_outside))]
    fn write_page(&mut self) -> Result<bool, Refusal> {
        PageWrites::write_page(self)
    }

    ghost collected = { VisitedIsCollected R.meaning R.collecting };

    fn collect_visited(&mut self, t: TxNo, run: &Run<R>) -> Result<(), Refusal> {
        collect_last(self, t, run)
    }

    ghost each_collected = { CollectsEach R.meaning R.collecting };

    fn collect_all(&mut self) -> Result<(), Refusal> {
        Collects::collect_all(self)
    }
}
