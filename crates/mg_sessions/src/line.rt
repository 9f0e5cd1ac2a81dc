//! What a line itself does.

ghost use Rattle.std.specs.Prelude.{◌≡◌, FitsSigned, true, List};
ghost use Rattle.std.specs.Int.{w64};
ghost use Rattle.mg_model.specs.declared.opening.Opening.{Opening};
ghost use Rattle.mg_model.specs.History.{Entries};
ghost use Rattle.mg_transcript.specs.Lines.{Does};
ghost use Rattle.mg_transcript.specs.Sessions.{Unfinished};
ghost use Rattle.mg_courses.specs.Running.{refusal_answered};
ghost use Rattle.mg_pending.specs.Standing.{AreReady, StandAt};
ghost use Rattle.mg_sessions.specs.Accounts.{Accounts};
ghost use Rattle.mg_sessions.specs.Coming.{ComesTo};
ghost use Rattle.mg_sessions.specs.Lines.{IsObeyable, WritesPages};

use crate::collecting::obey_collect;
use crate::holding::{obey_go, obey_step};
use crate::shorthand::{obey_get, obey_put};
use crate::statements::{obey_held, obey_sql};
use crate::tending::obey_write;
use mg_pending::Sessions;
use mg_rows::Outcome;
use mg_script::{LineKind, Reply};
use mg_shorthand::Serves;
use std::alloc::Global;

/// Does what a line itself does, and tells what it is answered. Statements that waited do not go on
/// here.
pub fn obey<R: Serves>(
    r: &mut R,
    alloc: Global,
    sessions: &mut Sessions<R::Run>,
    size: u32,
    kind: &LineKind,
) -> Reply
where
    R::Run: Drop,
    requires ready { AreReady R.meaning R.runs r.old sessions.old.transactions sessions.old.pending.items }
    requires size { R.meaning.is_size r.old size ≡ true }
    requires obeyable { IsObeyable kind.now }
    ensures does { (o : Opening) (h : Entries) (us : List Unfinished)
        → StandAt R.meaning R.runs r.old o h sessions.old.transactions sessions.old.pending.items us
        → ComesTo R.meaning R.runs r.old r.new o h sessions.new.transactions sessions.new.pending.items
        (Does o h size us kind.now result) }
    ensures ready { AreReady R.meaning R.runs r.new sessions.new.transactions sessions.new.pending.items }
    ensures accounts { Accounts R.meaning r.old r.new (refusal_answered result) }
    ensures writes { WritesPages R.meaning r.old r.new kind.now result }
{
    match kind {
        LineKind::Sql { session, text } => {
            obey_sql(r, alloc, sessions, size, *session, text.as_slice())
        }
        LineKind::Held { session, text } => {
            obey_held(r, alloc, sessions, size, *session, text.as_slice())
        }
        LineKind::Step { session, most } => obey_step(r, alloc, sessions, *session, *most),
        LineKind::Go { session } => obey_go(r, alloc, sessions, *session),
        LineKind::Write { most } => obey_write(r, sessions, *most),
        LineKind::Silent => Reply::Ok(Outcome::Fine),
        LineKind::Bad => Reply::Bad,
        LineKind::Put { key, value } => {
            let put = number_of(key);
            let with = number_of(value);
            obey_put(r, alloc, sessions, put, with)
        }
        LineKind::Get { key } => {
            let wanted = number_of(key);
            obey_get(r, alloc, sessions, size, wanted)
        }
        LineKind::Collect => obey_collect(r, sessions),
        // No such line is handed to this call.
        LineKind::Sweep { .. } | LineKind::Prepare { .. } => Reply::Bad,
    }
}

// A number that stands in a line.
fn number_of(number: &i64) -> i64
    ensures same { result ≡ number.now }
    ensures fits { FitsSigned w64 result }
{
    *number
}
