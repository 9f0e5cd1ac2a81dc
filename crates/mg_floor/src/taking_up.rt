//! A session takes up the next line of its script.

ghost use Rattle.std.specs.Prelude.{◌≡◌, ◌<◌, ℕ, List, true};
ghost use Rattle.mg_model.specs.declared.opening.Opening.{Opening};
ghost use Rattle.mg_model.specs.History.{Entries};
ghost use Rattle.mg_script.specs.declared.line.TheConstants.{SESSIONS};
ghost use Rattle.mg_transcript.specs.Sessions.{Unfinished};
ghost use Rattle.mg_courses.specs.Running.{refusal_answered};
ghost use Rattle.mg_pending.specs.Standing.{AreReady, StandAt};
ghost use Rattle.mg_sessions.specs.Accounts.{Accounts};
ghost use Rattle.mg_sessions.specs.Coming.{ComesTo};
ghost use Rattle.mg_floor.specs.TakingUp.{TakesUp};

use mg_courses::Statements;
use mg_model::Mode;
use mg_pending::Sessions;
use mg_rows::StatementFault;
use mg_script::{Reply, Session};
use mg_sessions::{begin, hold_own, read};
use mg_sql::texts_are_one_statement;
use mg_statements::Statement;
use std::alloc::Global;

/// The text of a session that has no statement begun: SET TRANSACTION begins a transaction, any other statement begins,
/// and is kept where it goes on by later steps.
pub(crate) fn take_up<R: Statements>(
    r: &mut R,
    alloc: Global,
    sessions: &mut Sessions<R::Run>,
    size: u32,
    session: Session,
    text: &[u8],
) -> Reply
where
    R::Run: Drop,
    requires ready { AreReady R.meaning R.runs r.old sessions.old.transactions sessions.old.pending.items }
    requires size { R.meaning.is_size r.old size ≡ true }
    requires lettered { session.0 < SESSIONS }
    ensures does { (o : Opening) (h : Entries) (us : List Unfinished)
        → StandAt R.meaning R.runs r.old o h sessions.old.transactions sessions.old.pending.items us
        → ComesTo R.meaning R.runs r.old r.new o h sessions.new.transactions sessions.new.pending.items
        (TakesUp o h size us session text.now result) }
    ensures ready { AreReady R.meaning R.runs r.new sessions.new.transactions sessions.new.pending.items }
    ensures accounts { Accounts R.meaning r.old r.new (refusal_answered result) }
{
    texts_are_one_statement();
    let statement = match read(alloc, &sessions.pending, session, text) {
        Ok(statement) => statement,
        Err(fault) => return Reply::No(fault),
    };
    match statement {
        Statement::SetTransaction {
            read_only,
            wait,
            snapshot,
        } => begin(
            r,
            sessions,
            session,
            Mode {
                read_only,
                wait,
                snapshot,
            },
        ),
        other => hold_own(r, alloc, sessions, size, session, other),
    }
}
