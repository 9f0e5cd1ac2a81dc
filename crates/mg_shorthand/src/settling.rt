//! The commit of a line's transaction.

ghost use Rattle.std.specs.Prelude.{◌≡◌, None, OnOk, false};
ghost use Rattle.mg_base.specs.declared.transaction.TxState.TheVariants.{Active};
ghost use Rattle.mg_model.specs.declared.opening.Opening.{Opening};
ghost use Rattle.mg_model.specs.History.{Entries};
ghost use Rattle.mg_model.specs.Machine.{state_of};
ghost use Rattle.mg_records.specs.Keeping.{refusal_in};
ghost use Rattle.mg_transcript.specs.Shorthand.{Settles};
ghost use Rattle.mg_courses.specs.Running.{refusal_answered};
ghost use Rattle.mg_shorthand.specs.Going.{Goes, IsFromOutside, ReadsOn, Spares, SparesOn};

use crate::giving_up::give_up_for;
use mg_base::TxNo;
use mg_courses::Ending;
use mg_model::Refusal;
use mg_records::Records;
use mg_script::Reply;

/// A line has done what it is for: its transaction commits, and the line answers so. Where that is refused, the
/// transaction is rolled back.
pub(crate) fn settle<R: Records>(r: &mut R, t: TxNo, reply: Reply) -> Ending
    requires fine { refusal_answered reply ≡ None }
    ensures goes { Goes R.meaning r.old r.new t result.over (λ o h after. Settles o h t reply after result.reply) }
    ensures spares { SparesOn R.meaning r.old r.new t None (refusal_answered result.reply) result.over }
{
    match ready_to_commit(r, t) {
        Ok(()) => commit(r, t, reply),
        Err(refusal) => give_up_for(r, t, refusal),
    }
}

// Commits a transaction, once all that it has to write first is written.
fn commit<R: Records>(r: &mut R, t: TxNo, reply: Reply) -> Ending
    requires written { R.meaning.is_written r.old t.0 }
    requires fine { refusal_answered reply ≡ None }
    ensures goes { Goes R.meaning r.old r.new t result.over (λ o h after. Settles o h t reply after result.reply) }
    ensures spares { SparesOn R.meaning r.old r.new t None (refusal_answered result.reply) result.over }
{
    match r.commit_end(t) {
        Ok(()) => Ending { reply, over: true },
        Err(refusal) => give_up_for(r, t, refusal),
    }
}

// Asks for a commit, and writes the pages that it has to write first.
fn ready_to_commit<R: Records>(r: &mut R, t: TxNo) -> Result<(), Refusal>
    ensures written { OnOk result (R.meaning.is_written r.new t.0) }
    ensures outside { (o : Opening) (h : Entries) → R.meaning.stands r.old o h → state_of o h t.0 ≡ Active
        → IsFromOutside result }
    ensures reads { (o : Opening) (h : Entries) → R.meaning.stands r.old o h
        → ReadsOn R.meaning r.old r.new o h }
    ensures spares { Spares R.meaning r.old r.new t (refusal_in result) false }
{
    match r.commit_ask(t) {
        Ok(()) => write_noted(r, t),
        Err(refusal) => Err(refusal),
    }
}

// Writes the pages that a commit has to write first.
fn write_noted<R: Records>(r: &mut R, t: TxNo) -> Result<(), Refusal>
    requires asked { R.meaning.is_asked r.old t.0 }
    ensures written { OnOk result (R.meaning.is_written r.new t.0) }
    ensures outside { (o : Opening) (h : Entries) → R.meaning.stands r.old o h → state_of o h t.0 ≡ Active
        → IsFromOutside result }
    ensures reads { (o : Opening) (h : Entries) → R.meaning.stands r.old o h
        → ReadsOn R.meaning r.old r.new o h }
    ensures spares { Spares R.meaning r.old r.new t (refusal_in result) false }
{
    let mut all = false;
    while !all {
        match r.commit_step(t) {
            Ok(done) => all = done,
            Err(refusal) => return Err(refusal),
        }
    }
    Ok(())
}
