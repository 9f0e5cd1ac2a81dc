//! A statement that has waited too long.

ghost use Rattle.std.specs.Prelude.{◌≡◌, ◌<◌, ℕ, List, Some, false};
ghost use Rattle.mg_model.specs.declared.opening.Opening.{Opening};
ghost use Rattle.mg_model.specs.History.{Entries};
ghost use Rattle.mg_script.specs.declared.line.TheConstants.{SESSIONS};
ghost use Rattle.mg_transcript.specs.Sessions.{Unfinished};
ghost use Rattle.mg_interleavings.specs.Interleavings.{TimesOut};
ghost use Rattle.mg_pending.specs.Standing.{AreReady, StandAt};
ghost use Rattle.mg_pending.specs.declared.transactions.TheConstants.{PLACES};
ghost use Rattle.mg_pending.specs.StandingLaws.{ended_at};
ghost use Rattle.mg_pending.specs.Statements.{has_statement};
ghost use Rattle.mg_pending.specs.Transactions.{number_at};
ghost use Rattle.mg_sessions.specs.Accounts.{Accounts};
ghost use Rattle.mg_sessions.specs.Coming.{ComesTo};
ghost use Rattle.mg_floor.specs.Answering.{ends_by, refusal_told_by};

use mg_base::TxNo;
use mg_courses::Statements;
use mg_interleavings::{Answered, give_up};
use mg_pending::{Sessions, Transactions};
use mg_records::gives_up;
use mg_rows::StatementFault;
use mg_script::{Reply, Session};

/// A statement of a session that is no longer among those that go on is taken back, since it has waited too long for
/// a transaction. Where that is refused, its transaction may have come to its end.
pub(crate) fn give_up_one<R: Statements>(
    r: &mut R,
    sessions: &mut Sessions<R::Run>,
    session: Session,
    t: TxNo,
    on: TxNo,
) -> Answered
    requires ready { AreReady R.meaning R.runs r.old sessions.old.transactions sessions.old.pending.items }
    requires its { number_at sessions.old.transactions session.0 ≡ Some t }
    requires idle { has_statement session.0 sessions.old.pending.items ≡ false }
    requires lettered { session.0 < SESSIONS }
    ensures does { (o : Opening) (h : Entries) (us : List Unfinished)
        → StandAt R.meaning R.runs r.old o h sessions.old.transactions sessions.old.pending.items us
        → ComesTo R.meaning R.runs r.old r.new o h sessions.new.transactions sessions.new.pending.items
        (λ after then_. TimesOut o h t on after result × (then_ ≡ us)) }
    ensures ready { AreReady R.meaning R.runs r.new sessions.new.transactions sessions.new.pending.items }
    ensures accounts { Accounts R.meaning r.old r.new (refusal_told_by result) }
{
    let answered = give_up(r, t, on);
    let over = ends(&answered);
    end_if(&mut sessions.transactions, session, over);
    answered
}

// The transaction of a session has come to its end, if this holds.
fn end_if(transactions: &mut Transactions, session: Session, over: bool)
    requires { session.0 < PLACES }
    ensures { transactions.new ≡ ended_at session.0 over transactions.old }
{
    if over {
        transactions.end(session);
    }
}

// Whether the transaction of a statement that was given up came to its end: the taking back was refused so.
fn ends(answered: &Answered) -> bool
    ensures { result ≡ ends_by answered.now }
{
    match answered {
        Answered::Replied(Reply::No(StatementFault::Engine(refusal))) => gives_up(*refusal),
        _ => false,
    }
}
