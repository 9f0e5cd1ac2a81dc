//! Savepoints.

ghost use Rattle.std.specs.Prelude.{◌≡◌};
ghost use Rattle.mg_model.specs.declared.opening.Opening.{Opening};
ghost use Rattle.mg_model.specs.History.{Entries};
ghost use Rattle.mg_calls.specs.Quiet.{AreQuiet};
ghost use Rattle.mg_exec.specs.Phases.{Leaves, rolled_back_at};
ghost use Rattle.mg_exec.specs.Points.{Saves, Returns, given_up_or_refused};
ghost use Rattle.mg_exec.specs.Progress.{IsAtEnd};

use crate::ending::{ended, refused, rolled_back};
use crate::phase::{Step, Turn};
use mg_base::TxNo;
use mg_model::Refusal;
use mg_records::{Records, gives_up};
use mg_rows::{Outcome, StatementFault};
use mg_value::Name;

/// Sets a savepoint.
pub fn save<R: Records>(r: &mut R, t: TxNo, name: &Name) -> Turn<R::Place>
where
    R::Place: Drop,
    ensures saves { (o : Opening) (h : Entries) → R.meaning.stands r.old o h
        → Saves R.meaning r.new o h t name.now result }
    ensures behind { IsAtEnd result }
    ensures leaves { Leaves R.meaning r.old r.new t.0 result }
    ensures quiet { AreQuiet R.meaning r.old r.new (rolled_back_at t.0 result.phase) }
{
    match r.savepoint(t, name) {
        Ok(()) => ended(Ok(Step::Done(Outcome::Fine))),
        Err(refusal) => refused(refusal),
    }
}

/// Goes back to the last savepoint of a name.
pub fn go_back<R: Records>(r: &mut R, t: TxNo, name: &Name) -> Turn<R::Place>
where
    R::Place: Drop,
    ensures returns { (o : Opening) (h : Entries) → R.meaning.stands r.old o h
        → Returns R.meaning r.new o h t name.now result }
    ensures behind { IsAtEnd result }
    ensures leaves { Leaves R.meaning r.old r.new t.0 result }
    ensures quiet { AreQuiet R.meaning r.old r.new (rolled_back_at t.0 result.phase) }
{
    match r.back_to(t, name) {
        Ok(true) => ended(Ok(Step::Done(Outcome::Fine))),
        Ok(false) => ended(Err(StatementFault::NoSavepoint)),
        Err(refusal) => not_back(refusal),
    }
}

/// A statement whose going back was refused.
fn not_back<P: Drop>(refusal: Refusal) -> Turn<P>
    ensures { result ≡ given_up_or_refused refusal }
{
    if gives_up(refusal) {
        rolled_back(refusal)
    } else {
        refused(refusal)
    }
}
