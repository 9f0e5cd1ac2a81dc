//! The writing of changed pages.

ghost use Rattle.std.specs.Prelude.{◌≡◌, ◌-◌, ℕ, List, None, OnOk, IfErr, true};
ghost use Rattle.mg_model.specs.declared.opening.Opening.{Opening};
ghost use Rattle.mg_model.specs.History.{Entries};
ghost use Rattle.mg_records.specs.Keeping.{refusal_in};
ghost use Rattle.mg_records.specs.Sessions.{SessionsStay};
ghost use Rattle.mg_calls.specs.Frames.{Frames};
ghost use Rattle.mg_script.specs.declared.line.LineKind.TheVariants as kinds;
ghost use Rattle.mg_transcript.specs.Lines.{Does};
ghost use Rattle.mg_transcript.specs.Sessions.{Unfinished};
ghost use Rattle.mg_transcript.specs.Steps.{is_outside};
ghost use Rattle.mg_courses.specs.Running.{refusal_answered};
ghost use Rattle.mg_pending.specs.Standing.{AreReady, StandAt};
ghost use Rattle.mg_sessions.specs.Accounts.{Accounts};
ghost use Rattle.mg_sessions.specs.Coming.{ComesTo};
ghost use Rattle.mg_sessions.specs.Lines.{WritesPages};
ghost use Rattle.mg_courses.specs.Carrying.{Carries};

use mg_courses::Tends;
use mg_model::Refusal;
use mg_pending::Sessions;
use mg_rows::{Outcome, StatementFault};
use mg_script::Reply;

/// Obeys `@write n`: so many changed pages are written.
pub(crate) fn obey_write<R: Tends>(r: &mut R, sessions: &Sessions<R::Run>, most: u32) -> Reply
    requires ready { AreReady R.meaning R.runs r.old sessions.now.transactions sessions.now.pending.items }
    ensures does { (o : Opening) (h : Entries) (us : List Unfinished) (size : ℕ)
        → StandAt R.meaning R.runs r.old o h sessions.now.transactions sessions.now.pending.items us
        → ComesTo R.meaning R.runs r.old r.new o h sessions.now.transactions sessions.now.pending.items
        (Does o h size us (kinds.Write most) result) }
    ensures ready { AreReady R.meaning R.runs r.new sessions.now.transactions sessions.now.pending.items }
    ensures accounts { Accounts R.meaning r.old r.new (refusal_answered result) }
    ensures writes { WritesPages R.meaning r.old r.new (kinds.Write most) result }
{
    match write_pages(r, most) {
        Ok(()) => Reply::Ok(Outcome::Fine),
        Err(refusal) => Reply::No(StatementFault::Engine(refusal)),
    }
}

// Writes so many changed pages, fewer only where none is changed any more, or where a refusal from
// outside comes: a fault of the disk, or damage.
fn write_pages<R: Tends>(r: &mut R, most: u32) -> Result<(), Refusal>
    ensures written { OnOk result (R.meaning.unwritten r.new ≡ R.meaning.unwritten r.old - most) }
    ensures outside { IfErr result (λ refusal. is_outside refusal ≡ true) }
    ensures stands { (o : Opening) (h : Entries) → R.meaning.stands r.old o h
        → R.meaning.stands r.new o h × Carries R.meaning r.old r.new o h h }
    ensures frames { (n : ℕ) → Frames R.meaning r.old r.new n (refusal_in result) }
    ensures sessions { SessionsStay R.meaning r.old r.new None None }
{
    let mut left = most;
    while left > 0 {
        match r.write_page() {
            Ok(true) => left -= 1,
            Ok(false) => return Ok(()),
            Err(refusal) => return Err(refusal),
        }
    }
    Ok(())
}
