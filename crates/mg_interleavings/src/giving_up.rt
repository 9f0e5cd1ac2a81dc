//! A statement that has waited too long is given up.

ghost use Rattle.mg_model.specs.declared.opening.Opening.{Opening};
ghost use Rattle.mg_model.specs.History.{Entries};
ghost use Rattle.mg_interleavings.specs.GivingUp.{ComesOut, GivesUpWaiting};

use crate::answered::Answered;
use mg_base::TxNo;
use mg_records::Records;
use mg_rows::StatementFault;
use mg_script::Reply;

/// Gives up a statement of a transaction that has waited too long for another one: all since its mark is taken back.
/// It answers LOCK TIMEOUT, or the refusal of that, after which the transaction is rolled back where it is one that
/// gives it up.
pub fn give_up<R: Records>(r: &mut R, t: TxNo, on: TxNo) -> Answered
    ensures gives { GivesUpWaiting R.meaning r.old r.new t on result }
    ensures out { (o : Opening) (h : Entries) → R.meaning.stands r.old o h
        → ComesOut R.meaning r.new o h t on result }
{
    match r.undo_mark(t) {
        Ok(()) => Answered::LockTimeout { on },
        Err(refusal) => Answered::Replied(Reply::No(StatementFault::Engine(refusal))),
    }
}
