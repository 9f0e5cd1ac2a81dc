//! The statements of a session.

ghost use Rattle.std.specs.Prelude.{◌≡◌, ◌<◌, ℕ, List, true, false, IfOk, Some, vec_len, vec_capacity};
ghost use Rattle.mg_model.specs.declared.opening.Opening.{Opening};
ghost use Rattle.mg_model.specs.History.{Entries};
ghost use Rattle.mg_sql.specs.Answers.{Parses};
ghost use Rattle.mg_sql.specs.Lengths.{HasLengths};
ghost use Rattle.mg_statements.specs.Plain.{plain_of, SetTransaction};
ghost use Rattle.mg_script.specs.declared.line.LineKind.TheVariants as kinds;
ghost use Rattle.mg_script.specs.declared.line.TheConstants.{SESSIONS};
ghost use Rattle.mg_script.specs.Lines.{MayBeHeld};
ghost use Rattle.mg_transcript.specs.Courses.{Course, Later};
ghost use Rattle.mg_transcript.specs.Lines.{Does, begins};
ghost use Rattle.mg_transcript.specs.Sessions.{Unfinished};
ghost use Rattle.mg_transcript.specs.Steps.{Runs};
ghost use Rattle.mg_courses.specs.Running.{refusal_answered};
ghost use Rattle.mg_courses.specs.Working.{IsWorkAt, IsWorkReady};
ghost use Rattle.mg_pending.specs.Standing.{AreReady, StandAt};
ghost use Rattle.mg_pending.specs.Statements.{has_statement};
ghost use Rattle.mg_pending.specs.Transactions.{number_at};
ghost use Rattle.mg_sessions.specs.Accounts.{Accounts};
ghost use Rattle.mg_sessions.specs.Coming.{ComesTo, IsKept};
ghost use Rattle.mg_sessions.specs.Lines.{IsReadFor};
ghost use Rattle.mg_sessions.specs.Moves.{Moves};

use mg_base::TxNo;
use mg_courses::{Started, Statements, Stepped, Tends, Work, run, start};
use mg_model::{Mode, Refusal};
use mg_pending::{Pending, Sessions, Transaction, is_busy};
use mg_rows::StatementFault;
use mg_script::{Reply, Session};
use mg_sql::{parse, statements_have_lengths};
use mg_statements::{Statement, let_go};
use std::alloc::Global;

/// Obeys `A: sql`: a statement of a session runs until it waits or is at its end.
pub(crate) fn obey_sql<R: Tends>(
    r: &mut R,
    alloc: Global,
    sessions: &mut Sessions<R::Run>,
    size: u32,
    session: Session,
    text: &[u8],
) -> Reply
where
    R::Run: Drop,
    requires ready { AreReady R.meaning R.runs r.old sessions.old.transactions sessions.old.pending.items }
    requires size { R.meaning.is_size r.old size ≡ true }
    requires lettered { session.0 < SESSIONS }
    ensures does { (o : Opening) (h : Entries) (us : List Unfinished)
        → StandAt R.meaning R.runs r.old o h sessions.old.transactions sessions.old.pending.items us
        → ComesTo R.meaning R.runs r.old r.new o h sessions.new.transactions sessions.new.pending.items
        (Does o h size us (kinds.Sql session text.now) result) }
    ensures ready { AreReady R.meaning R.runs r.new sessions.new.transactions sessions.new.pending.items }
    ensures accounts { Accounts R.meaning r.old r.new (refusal_answered result) }
{
    let statement = match read(alloc, &sessions.pending, session, text) {
        Ok(statement) => statement,
        Err(fault) => return Reply::No(fault),
    };
    match statement {
        Statement::SetTransaction {
            read_only,
            wait,
            snapshot,
        } => begin(
            r,
            sessions,
            session,
            Mode {
                read_only,
                wait,
                snapshot,
            },
        ),
        other => run_own(r, alloc, sessions, size, session, other),
    }
}

/// Obeys `A~ sql`: a statement of a session begins, and is held.
pub(crate) fn obey_held<R: Statements>(
    r: &mut R,
    alloc: Global,
    sessions: &mut Sessions<R::Run>,
    size: u32,
    session: Session,
    text: &[u8],
) -> Reply
where
    R::Run: Drop,
    requires ready { AreReady R.meaning R.runs r.old sessions.old.transactions sessions.old.pending.items }
    requires size { R.meaning.is_size r.old size ≡ true }
    requires lettered { session.0 < SESSIONS }
    requires held { MayBeHeld text.now }
    ensures does { (o : Opening) (h : Entries) (us : List Unfinished)
        → StandAt R.meaning R.runs r.old o h sessions.old.transactions sessions.old.pending.items us
        → ComesTo R.meaning R.runs r.old r.new o h sessions.new.transactions sessions.new.pending.items
        (Does o h size us (kinds.Held session text.now) result) }
    ensures ready { AreReady R.meaning R.runs r.new sessions.new.transactions sessions.new.pending.items }
    ensures accounts { Accounts R.meaning r.old r.new (refusal_answered result) }
{
    match read(alloc, &sessions.pending, session, text) {
        Ok(statement) => hold_own(r, alloc, sessions, size, session, statement),
        Err(fault) => Reply::No(fault),
    }
}

/// Reads the text of a session that has no unfinished statement.
///
/// # Errors
///
/// `Busy` where it has one; else the fault of the text, or `Memory`.
pub fn read<P>(
    alloc: Global,
    pending: &Vec<Pending<P>>,
    session: Session,
    text: &[u8],
) -> Result<Statement, StatementFault>
    ensures reads { IsReadFor pending.now.items session text.now result }
    ensures lengths { IfOk result (λ statement. HasLengths (plain_of statement)) }
{
    if is_busy(pending, session) {
        return Err(StatementFault::Busy);
    }
    statements_have_lengths();
    match parse(alloc, text) {
        Ok(statement) => Ok(statement),
        Err(fault) => Err(StatementFault::from(fault)),
    }
}

/// Begins a transaction of a session, which has no unfinished statement.
pub fn begin<R: Statements>(
    r: &mut R,
    sessions: &mut Sessions<R::Run>,
    session: Session,
    mode: Mode,
) -> Reply
where
    R::Run: Drop,
    requires ready { AreReady R.meaning R.runs r.old sessions.old.transactions sessions.old.pending.items }
    requires lettered { session.0 < SESSIONS }
    requires idle { has_statement session.0 sessions.old.pending.items ≡ false }
    ensures does { (text : List ℕ) (size : ℕ)
        → Parses text (SetTransaction mode.read_only mode.wait mode.snapshot)
        → (o : Opening) (h : Entries) (us : List Unfinished)
        → StandAt R.meaning R.runs r.old o h sessions.old.transactions sessions.old.pending.items us
        → ComesTo R.meaning R.runs r.old r.new o h sessions.new.transactions sessions.new.pending.items
        (Does o h size us (kinds.Sql session text) result) }
    ensures ready { AreReady R.meaning R.runs r.new sessions.new.transactions sessions.new.pending.items }
    ensures accounts { Accounts R.meaning r.old r.new (refusal_answered result) }
{
    match sessions.transactions.of(session) {
        Some(_) => return Reply::No(StatementFault::InTransaction),
        None => {}
    }
    match r.begin(session.0, mode) {
        Ok(number) => {
            sessions.transactions.begin(
                session,
                Transaction {
                    number,
                    read_only: mode.read_only,
                },
            );
            Reply::Tx(number)
        }
        Err(refusal) => Reply::No(StatementFault::Engine(refusal)),
    }
}

// Runs a statement of a session's transaction, which has no unfinished one.
fn run_own<R: Tends>(
    r: &mut R,
    alloc: Global,
    sessions: &mut Sessions<R::Run>,
    size: u32,
    session: Session,
    statement: Statement,
) -> Reply
where
    R::Run: Drop,
    requires ready { AreReady R.meaning R.runs r.old sessions.old.transactions sessions.old.pending.items }
    requires size { R.meaning.is_size r.old size ≡ true }
    requires lettered { session.0 < SESSIONS }
    requires idle { has_statement session.0 sessions.old.pending.items ≡ false }
    requires other { begins (plain_of statement) ≡ false }
    requires lengths { HasLengths (plain_of statement) }
    ensures does { (text : List ℕ) → Parses text (plain_of statement)
        → (o : Opening) (h : Entries) (us : List Unfinished)
        → StandAt R.meaning R.runs r.old o h sessions.old.transactions sessions.old.pending.items us
        → ComesTo R.meaning R.runs r.old r.new o h sessions.new.transactions sessions.new.pending.items
        (Does o h size us (kinds.Sql session text) result) }
    ensures ready { AreReady R.meaning R.runs r.new sessions.new.transactions sessions.new.pending.items }
    ensures accounts { Accounts R.meaning r.old r.new (refusal_answered result) }
{
    let own = match sessions.transactions.of(session) {
        Some(own) => own,
        None => {
            let_go(statement);
            return Reply::No(StatementFault::Engine(Refusal::NoTransaction));
        }
    };
    match sessions.reserve() {
        Ok(()) => {}
        Err(_) => {
            let_go(statement);
            return Reply::No(StatementFault::Engine(Refusal::Memory));
        }
    }
    match start(r, alloc, own.number, own.read_only, statement, size) {
        Started::Begun(work) => go_on(r, alloc, sessions, session, own.number, work),
        Started::Ended(ending) => sessions.end(session, ending),
    }
}

/// Begins a statement of a session's transaction, which has no unfinished one, and holds it.
pub fn hold_own<R: Statements>(
    r: &mut R,
    alloc: Global,
    sessions: &mut Sessions<R::Run>,
    size: u32,
    session: Session,
    statement: Statement,
) -> Reply
where
    R::Run: Drop,
    requires ready { AreReady R.meaning R.runs r.old sessions.old.transactions sessions.old.pending.items }
    requires size { R.meaning.is_size r.old size ≡ true }
    requires lettered { session.0 < SESSIONS }
    requires idle { has_statement session.0 sessions.old.pending.items ≡ false }
    requires other { begins (plain_of statement) ≡ false }
    requires lengths { HasLengths (plain_of statement) }
    ensures does { (text : List ℕ) → Parses text (plain_of statement)
        → (o : Opening) (h : Entries) (us : List Unfinished)
        → StandAt R.meaning R.runs r.old o h sessions.old.transactions sessions.old.pending.items us
        → ComesTo R.meaning R.runs r.old r.new o h sessions.new.transactions sessions.new.pending.items
        (Does o h size us (kinds.Held session text) result) }
    ensures ready { AreReady R.meaning R.runs r.new sessions.new.transactions sessions.new.pending.items }
    ensures accounts { Accounts R.meaning r.old r.new (refusal_answered result) }
{
    let own = match sessions.transactions.of(session) {
        Some(own) => own,
        None => {
            let_go(statement);
            return Reply::No(StatementFault::Engine(Refusal::NoTransaction));
        }
    };
    match sessions.reserve() {
        Ok(()) => {}
        Err(_) => {
            let_go(statement);
            return Reply::No(StatementFault::Engine(Refusal::Memory));
        }
    }
    match start(r, alloc, own.number, own.read_only, statement, size) {
        Started::Begun(work) => sessions.keep(session, own.number, work, Stepped::More),
        Started::Ended(ending) => sessions.end(session, ending),
    }
}

/// Makes the steps of a session's statement until it waits or is at its end, and keeps what it came to.
/// The session has no other unfinished statement.
pub(crate) fn go_on<R: Tends>(
    r: &mut R,
    alloc: Global,
    sessions: &mut Sessions<R::Run>,
    session: Session,
    t: TxNo,
    work: Work<R::Run>,
) -> Reply
where
    R::Run: Drop,
    requires ready { AreReady R.meaning R.runs r.old sessions.old.transactions sessions.old.pending.items }
    requires room { vec_len sessions.old.pending < vec_capacity sessions.old.pending }
    requires lettered { session.0 < SESSIONS }
    requires idle { has_statement session.0 sessions.old.pending.items ≡ false }
    requires its { number_at sessions.old.transactions session.0 ≡ Some t }
    requires can { IsWorkReady R.meaning R.runs r.old t work }
    ensures does { (o : Opening) (h : Entries) (us : List Unfinished) (course : Course)
        → StandAt R.meaning R.runs r.old o h sessions.old.transactions sessions.old.pending.items us
        → IsWorkAt R.runs r.old o h t work course
        → ComesTo R.meaning R.runs r.old r.new o h sessions.new.transactions sessions.new.pending.items
        (IsKept session t us (Runs o t h (Later course)) result) }
    ensures moves { Moves sessions.old.transactions sessions.new.transactions
        sessions.old.pending.items sessions.new.pending.items }
    ensures ready { AreReady R.meaning R.runs r.new sessions.new.transactions sessions.new.pending.items }
    ensures accounts { Accounts R.meaning r.old r.new (refusal_answered result) }
{
    let mut work = work;
    let stepped = run(r, alloc, t, &mut work);
    sessions.keep(session, t, work, stepped)
}
