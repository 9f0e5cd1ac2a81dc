//! What is printed of an answer.

ghost use Rattle.std.specs.Prelude.{◌≡◌, ◌<◌, ◌++◌, IfOk, OnErr, OnOk};
ghost use Rattle.mg_script.specs.declared.line.TheConstants.{SESSIONS};
ghost use Rattle.mg_interleavings.specs.Texts.{said_at_once, timeout_text};

use crate::answered::Answered;
use mg_base::{Memory, TxNo};
use mg_script::{Session, put_number, put_word, session_text};
use std::alloc::Global;

/// Appends what a session is answered, each line with its end.
///
/// # Errors
///
/// `Memory` only. Then `out` is as before.
pub fn answered_text(session: Session, answered: &Answered, out: &mut Vec<u8>) -> Result<(), Memory>
    requires { session.0 < SESSIONS }
    ensures ok { OnOk result (out.new.items ≡ out.old.items ++ said_at_once session answered.now) }
    ensures err { OnErr result (out.new.items ≡ out.old.items) }
{
    match answered {
        Answered::Replied(reply) => session_text(session, reply, out),
        Answered::LockTimeout { on } => put_timeout(session, *on, out),
    }
}

// Appends that a session has waited too long.
fn put_timeout(session: Session, on: TxNo, out: &mut Vec<u8>) -> Result<(), Memory>
    requires { session.0 < SESSIONS }
    ensures ok { OnOk result (out.new.items ≡ out.old.items ++ timeout_text session on) }
    ensures err { OnErr result (out.new.items ≡ out.old.items) }
{
    let line = timeout_line(*out.allocator(), session, on)?;
    out.extend_from_slice(&line)?;
    Ok(())
}

// The line of a session that has waited too long.
fn timeout_line(alloc: Global, session: Session, on: TxNo) -> Result<Vec<u8>, Memory>
    requires { session.0 < SESSIONS }
    ensures { IfOk result (λ line. line.items ≡ timeout_text session on) }
{
    let mut line = Vec::new(alloc);
    line.push(b'A' + session.0)?;
    put_word(&mut line, ": LOCK TIMEOUT ON ")?;
    put_number(&mut line, u64::from(on.0))?;
    put_word(&mut line, "\n")?;
    Ok(line)
}
