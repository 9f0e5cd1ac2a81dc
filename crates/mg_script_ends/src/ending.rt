//! What the sessions have begun is rolled back.

ghost use Rattle.std.specs.Prelude.{◌≡◌, ◌<◌, ◌≤◌, ◌+◌, ℕ, [], ◌∷◌, false, List, Option, None, Some, vec_len, vec_capacity};
ghost use Rattle.mg_faults.specs.Faults.{tells_fault};
ghost use Rattle.mg_model.specs.declared.opening.Opening.{Opening};
ghost use Rattle.mg_model.specs.History.{Entries};
ghost use Rattle.mg_transcript.specs.Scripts.{AreRolledBack, sessions};
ghost use Rattle.mg_transcript.specs.Shorthand.{stops_run};
ghost use Rattle.mg_pending.specs.declared.transactions.TheConstants.{PLACES};
ghost use Rattle.mg_pending.specs.declared.transactions.Transaction.{Transaction as Remembered};
ghost use Rattle.mg_pending.specs.Standing.{AreReady, StandAt};
ghost use Rattle.mg_pending.specs.Transactions.{number_at};
ghost use Rattle.mg_sessions.specs.Accounts.{Accounts};
ghost use Rattle.mg_script_ends.specs.Ends.{AreCaused, EndsSession, EndsSoFar, EndsWith, StopsOrGoes, last_of as last_of_them, told_of};

use mg_base::TxNo;
use mg_courses::Statements;
use mg_faults::worse;
use mg_model::Refusal;
use mg_pending::Transactions;
use mg_rows::StatementFault;
use mg_script::{Reply, Session};
use mg_transcript::{Flow, flow_of};

/// Rolls back the live transaction of each session, A to P and that of the shorthand lines, in this order. `refusals`
/// gets what was refused; behind one by which the run stops nothing comes.
///
/// `refusals` is empty, and has room for one of each session.
pub fn roll_back_all<R: Statements>(
    r: &mut R,
    transactions: &mut Transactions,
    refusals: &mut Vec<Refusal>,
)
    requires ready { AreReady R.meaning R.runs r.old transactions.old [] }
    requires none { refusals.old.items ≡ [] }
    requires room { vec_len refusals.old + PLACES ≤ vec_capacity refusals.old }
    ensures ends { (o : Opening) (h : Entries) → StandAt R.meaning R.runs r.old o h transactions.old [] []
        → EndsWith R.meaning R.runs r.old r.new o h transactions.new
        (λ after. AreRolledBack o h sessions after refusals.new.items) }
    ensures accounts { Accounts R.meaning r.old r.new (told_of refusals.new.items) }
    ensures caused { AreCaused R.meaning r.old r.new refusals.new.items }
{
    for s in 0..17u8 {
        if end_one(r, transactions, refusals, Session(s)) {
            return;
        }
    }
}

// Rolls back the live transaction of a session, if it has one, and keeps why it was refused. It tells whether the run
// stops by that.
fn end_one<R: Statements>(
    r: &mut R,
    transactions: &mut Transactions,
    refusals: &mut Vec<Refusal>,
    session: Session,
) -> bool
    requires ready { AreReady R.meaning R.runs r.old transactions.old [] }
    requires within { session.0 < PLACES }
    requires room { vec_len refusals.old < vec_capacity refusals.old }
    ensures ends { (start : R) (all : List (Option Remembered)) (whole rest : List ℕ)
        → EndsSoFar R.meaning R.runs start r.old all transactions.old whole (session.0 ∷ rest) refusals.old.items
        → StopsOrGoes R.meaning R.runs start r.new all transactions.new whole rest refusals.new.items result }
    ensures ready { AreReady R.meaning R.runs r.new transactions.new [] }
    ensures room { (left : ℕ) → vec_len refusals.old + (left + 1) ≤ vec_capacity refusals.old
        → vec_len refusals.new + left ≤ vec_capacity refusals.new }
    ensures accounts { (start : R) → Accounts R.meaning start r.old (told_of refusals.old.items)
        → tells_fault (told_of refusals.old.items) ≡ false
        → Accounts R.meaning start r.new (told_of refusals.new.items) }
    ensures caused { (start : R) → Accounts R.meaning start r.old (told_of refusals.old.items)
        → AreCaused R.meaning start r.old refusals.old.items
        → AreCaused R.meaning start r.new refusals.new.items }
    ensures quiet { tells_fault (told_of refusals.old.items) ≡ false → result ≡ false
        → tells_fault (told_of refusals.new.items) ≡ false }
{
    match end_session(r, transactions, session) {
        Some(refusal) => {
            refusals.push_reserved(refusal);
            stops(refusal)
        }
        None => false,
    }
}

// Rolls back the live transaction of a session, if it has one, and tells why it was refused.
fn end_session<R: Statements>(
    r: &mut R,
    transactions: &mut Transactions,
    session: Session,
) -> Option<Refusal>
    requires ready { AreReady R.meaning R.runs r.old transactions.old [] }
    requires within { session.0 < PLACES }
    ensures ends { (o : Opening) (h : Entries) → StandAt R.meaning R.runs r.old o h transactions.old [] []
        → EndsWith R.meaning R.runs r.old r.new o h transactions.new
        (λ after. EndsSession o h session.0 after result) }
    ensures ready { AreReady R.meaning R.runs r.new transactions.new [] }
    ensures accounts { Accounts R.meaning r.old r.new result }
{
    match transactions.of(session) {
        Some(own) => roll_back(r, transactions, session, own.number),
        None => None,
    }
}

// Rolls back the live transaction of a session.
fn roll_back<R: Statements>(
    r: &mut R,
    transactions: &mut Transactions,
    session: Session,
    t: TxNo,
) -> Option<Refusal>
    requires ready { AreReady R.meaning R.runs r.old transactions.old [] }
    requires within { session.0 < PLACES }
    requires its { number_at transactions.old session.0 ≡ Some t }
    ensures ends { (o : Opening) (h : Entries) → StandAt R.meaning R.runs r.old o h transactions.old [] []
        → EndsWith R.meaning R.runs r.old r.new o h transactions.new
        (λ after. EndsSession o h session.0 after result) }
    ensures ready { AreReady R.meaning R.runs r.new transactions.new [] }
    ensures accounts { Accounts R.meaning r.old r.new result }
{
    match r.rollback(t) {
        Ok(()) => {
            transactions.end(session);
            None
        }
        Err(refusal) => Some(refusal),
    }
}

// Whether the run stops by a refusal.
fn stops(refusal: Refusal) -> bool
    ensures { result ≡ stops_run refusal }
{
    match flow_of(&Reply::No(StatementFault::Engine(refusal))) {
        Flow::Stops(_) => true,
        Flow::GoesOn => false,
    }
}

/// The refusal that is told of a script's end, of those that came there: a fault of the disk, behind which nothing came,
/// or else the first. None where there was none.
pub fn told(refusals: &[Refusal]) -> Option<Refusal>
    ensures { result ≡ told_of refusals.now }
{
    match refusals.split_first() {
        Some((first, more)) => Some(worse(last_of(*first, more), *first)),
        None => None,
    }
}

// The last of some refusals.
fn last_of(first: Refusal, more: &[Refusal]) -> Refusal
    ensures { result ≡ last_of_them first more.now }
{
    let mut last = first;
    let mut rest = more;
    while let Some((next, later)) = rest.split_first() {
        last = *next;
        rest = later;
    }
    last
}
