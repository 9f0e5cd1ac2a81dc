//! The end of a transaction whose line was refused.

ghost use Rattle.std.specs.Prelude.{◌≡◌, Some};
ghost use Rattle.mg_transcript.specs.Shorthand.{GivesUp, stops_by};
ghost use Rattle.mg_courses.specs.Running.{refusal_answered, refusal_of};
ghost use Rattle.mg_shorthand.specs.Going.{Goes, SparesOn};

use mg_base::TxNo;
use mg_courses::Ending;
use mg_model::Refusal;
use mg_records::Records;
use mg_rows::StatementFault;
use mg_script::Reply;
use mg_transcript::{Flow, flow_of};

/// A line was refused: its transaction is rolled back, and the line answers the refusal, or that of the rollback.
/// Where the run stops by it, nothing comes behind it.
pub(crate) fn give_up<R: Records>(r: &mut R, t: TxNo, fault: StatementFault) -> Ending
    ensures goes { Goes R.meaning r.old r.new t result.over (λ o h after. GivesUp o h t fault after result.reply) }
    ensures spares { SparesOn R.meaning r.old r.new t (refusal_of fault) (refusal_answered result.reply) result.over }
{
    if stops(fault) {
        return Ending {
            reply: Reply::No(fault),
            over: false,
        };
    }
    match r.rollback(t) {
        Ok(()) => Ending {
            reply: Reply::No(fault),
            over: true,
        },
        Err(later) => Ending {
            reply: Reply::No(StatementFault::Engine(later)),
            over: false,
        },
    }
}

// Whether the run stops by what a line is refused for.
fn stops(fault: StatementFault) -> bool
    ensures { result ≡ stops_by fault }
{
    match flow_of(&Reply::No(fault)) {
        Flow::Stops(_) => true,
        Flow::GoesOn => false,
    }
}

/// The same for a refusal of the keeper.
pub(crate) fn give_up_for<R: Records>(r: &mut R, t: TxNo, refusal: Refusal) -> Ending
    ensures goes { Goes R.meaning r.old r.new t result.over (λ o h after.
        GivesUp o h t (StatementFault.Engine refusal) after result.reply) }
    ensures spares { SparesOn R.meaning r.old r.new t (Some refusal) (refusal_answered result.reply) result.over }
{
    give_up(r, t, StatementFault::Engine(refusal))
}
