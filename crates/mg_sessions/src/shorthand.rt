//! The lines `@put` and `@get`: each is a transaction of its own, of a session of its own.

ghost use Rattle.std.specs.Prelude.{◌≡◌, ℕ, List, IfOk, Some, true};
ghost use Rattle.mg_model.specs.declared.opening.Opening.{Opening};
ghost use Rattle.mg_model.specs.History.{Entries};
ghost use Rattle.mg_script.specs.declared.line.LineKind.TheVariants as kinds;
ghost use Rattle.mg_transcript.specs.Lines.{Does};
ghost use Rattle.mg_transcript.specs.Sessions.{Unfinished};
ghost use Rattle.mg_courses.specs.Running.{refusal_answered};
ghost use Rattle.mg_pending.specs.Standing.{AreReady, StandAt};
ghost use Rattle.mg_pending.specs.Transactions.{transaction_at};
ghost use Rattle.mg_sessions.specs.Accounts.{Accounts};
ghost use Rattle.mg_sessions.specs.Coming.{ComesTo};
ghost use Rattle.mg_sessions.specs.Own.{BeginsOwn, OWN, begun_with, refusal_at_begin};

use mg_base::TxNo;
use mg_courses::Statements;
use mg_model::Mode;
use mg_pending::{SHORTHAND, Sessions, Transaction};
use mg_rows::StatementFault;
use mg_script::Reply;
use mg_shorthand::{Serves, get};
use std::alloc::Global;

/// How the transaction of a put runs: it waits for nobody, and reads by one snapshot.
const PUTTING: Mode = Mode {
    read_only: false,
    wait: false,
    snapshot: true,
};

/// How that of a get runs: it only reads.
const GETTING: Mode = Mode {
    read_only: true,
    wait: true,
    snapshot: true,
};

/// Obeys `@put key value`.
pub(crate) fn obey_put<R: Serves>(
    r: &mut R,
    alloc: Global,
    sessions: &mut Sessions<R::Run>,
    key: i64,
    value: i64,
) -> Reply
where
    R::Run: Drop,
    requires ready { AreReady R.meaning R.runs r.old sessions.old.transactions sessions.old.pending.items }
    ensures does { (o : Opening) (h : Entries) (us : List Unfinished) (size : ℕ)
        → StandAt R.meaning R.runs r.old o h sessions.old.transactions sessions.old.pending.items us
        → ComesTo R.meaning R.runs r.old r.new o h sessions.new.transactions sessions.new.pending.items
        (Does o h size us (kinds.Put key value) result) }
    ensures ready { AreReady R.meaning R.runs r.new sessions.new.transactions sessions.new.pending.items }
    ensures accounts { Accounts R.meaning r.old r.new (refusal_answered result) }
{
    match begin_own(r, sessions, PUTTING) {
        Ok(t) => {
            let ending = r.put(alloc, t, key, value);
            sessions.end(SHORTHAND, ending)
        }
        Err(fault) => Reply::No(fault),
    }
}

/// Obeys `@get key`.
pub(crate) fn obey_get<R: Serves>(
    r: &mut R,
    alloc: Global,
    sessions: &mut Sessions<R::Run>,
    size: u32,
    key: i64,
) -> Reply
where
    R::Run: Drop,
    requires ready { AreReady R.meaning R.runs r.old sessions.old.transactions sessions.old.pending.items }
    requires size { R.meaning.is_size r.old size ≡ true }
    ensures does { (o : Opening) (h : Entries) (us : List Unfinished)
        → StandAt R.meaning R.runs r.old o h sessions.old.transactions sessions.old.pending.items us
        → ComesTo R.meaning R.runs r.old r.new o h sessions.new.transactions sessions.new.pending.items
        (Does o h size us (kinds.Get key) result) }
    ensures ready { AreReady R.meaning R.runs r.new sessions.new.transactions sessions.new.pending.items }
    ensures accounts { Accounts R.meaning r.old r.new (refusal_answered result) }
{
    match begin_own(r, sessions, GETTING) {
        Ok(t) => {
            let ending = get(r, alloc, t, size, key);
            sessions.end(SHORTHAND, ending)
        }
        Err(fault) => Reply::No(fault),
    }
}

// Begins the transaction of such a line. The session has one where its last rollback was refused.
fn begin_own<R: Statements>(
    r: &mut R,
    sessions: &mut Sessions<R::Run>,
    mode: Mode,
) -> Result<TxNo, StatementFault>
    requires ready { AreReady R.meaning R.runs r.old sessions.old.transactions sessions.old.pending.items }
    ensures begins { (o : Opening) (h : Entries) (us : List Unfinished)
        → StandAt R.meaning R.runs r.old o h sessions.old.transactions sessions.old.pending.items us
        → BeginsOwn R.meaning R.runs r.old r.new o h us mode sessions.new.transactions
        sessions.new.pending.items result }
    ensures own { IfOk result (λ t. transaction_at sessions.new.transactions OWN
        ≡ Some (begun_with t mode.read_only)) }
    ensures ready { AreReady R.meaning R.runs r.new sessions.new.transactions sessions.new.pending.items }
    ensures accounts { Accounts R.meaning r.old r.new (refusal_at_begin result) }
    ensures sizes { (size : ℕ) → R.meaning.is_size r.new size ≡ R.meaning.is_size r.old size }
{
    match sessions.transactions.of(SHORTHAND) {
        Some(_) => return Err(StatementFault::InTransaction),
        None => {}
    }
    match r.begin(SHORTHAND.0, mode) {
        Ok(number) => {
            sessions.transactions.begin(
                SHORTHAND,
                Transaction {
                    number,
                    read_only: mode.read_only,
                },
            );
            Ok(number)
        }
        Err(refusal) => Err(StatementFault::Engine(refusal)),
    }
}
