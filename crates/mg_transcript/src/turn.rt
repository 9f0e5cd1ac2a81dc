//! What a line came to.

ghost use Rattle.std.specs.Prelude.{◌≡◌, ◌++◌, All, OnErr, OnOk};
ghost use Rattle.std.specs.List.{flat_map};
ghost use Rattle.mg_value.specs.Values.{KeepsFront};
ghost use Rattle.mg_rows.specs.declared.statement_fault.StatementFault.TheVariants.{Engine};
ghost use Rattle.mg_script.specs.declared.reply.Reply.TheVariants.{No};
ghost use Rattle.mg_script.specs.Transcript.{HasLetter};
ghost use Rattle.mg_transcript.specs.Transcript.{turn_of, spoken_of, fine, flow, HasItsLetter};

use mg_base::Memory;
use mg_model::Refusal;
use mg_rows::StatementFault;
use mg_script::{Line, Reply, Session, answer_text, session_text};

/// What a statement that waited was answered when it went on.
#[derive(Debug, Drop)]
pub struct Spoken {
    pub session: Session,
    pub reply: Reply,
}

/// What a line came to: its own answer, and the answers of the statements that went on at it, in their
/// order.
#[derive(Debug, Drop)]
pub struct Turn {
    pub reply: Reply,
    pub released: Vec<Spoken>,
}

/// Whether a script goes on behind an answer.
#[derive(Clone, Copy, Debug, PartialEq, Eq)]
pub enum Flow {
    GoesOn,
    /// No line is obeyed behind it: the disk failed, a page is damaged, or memory is short.
    Stops(Refusal),
}

/// Whether a script goes on behind an answer.
pub fn flow_of(reply: &Reply) -> Flow
    ensures { result ≡ flow reply.now }
{
    match reply {
        Reply::No(StatementFault::Engine(refusal)) => flow_after(*refusal),
        _ => Flow::GoesOn,
    }
}

// Whether a script goes on behind a refusal.
fn flow_after(refusal: Refusal) -> Flow
    ensures { result ≡ flow (No (Engine refusal)) }
{
    match refusal {
        Refusal::DiskRead { .. }
        | Refusal::DiskWrite { .. }
        | Refusal::Offline { .. }
        | Refusal::Damaged { .. }
        | Refusal::Memory => Flow::Stops(refusal),
        _ => Flow::GoesOn,
    }
}

/// Whether an answer leaves all well: it is no refusal, or the statement waits, and is answered again
/// when it goes on.
pub fn is_fine(reply: &Reply) -> bool
    ensures { result ≡ fine reply.now }
{
    match reply {
        Reply::Ok(_) | Reply::Tx(_) | Reply::Held => true,
        Reply::No(StatementFault::Engine(Refusal::Waits { .. })) => true,
        Reply::No(_) | Reply::Bad => false,
    }
}

/// Appends what is printed at a line.
///
/// # Errors
///
/// `Memory` only. Then `out` is as before.
pub fn turn_text(line: &Line, turn: &Turn, out: &mut Vec<u8>) -> Result<(), Memory>
    requires lettered { HasLetter line.now.kind }
    requires released { All HasItsLetter turn.now.released.items }
    ensures ok { OnOk result
        (out.new.items ≡ out.old.items ++ turn_of line.now turn.now.reply turn.now.released.items) }
    ensures err { OnErr result (out.new.items ≡ out.old.items) }
{
    let before = out.len();
    let result = put_turn(line, turn, out);
    if result.is_err() {
        out.truncate(before);
    }
    result
}

// Appends what is printed at a line. Where memory runs out, a part of it may stand in `out`.
fn put_turn(line: &Line, turn: &Turn, out: &mut Vec<u8>) -> Result<(), Memory>
    requires lettered { HasLetter line.now.kind }
    requires released { All HasItsLetter turn.now.released.items }
    ensures ok { OnOk result
        (out.new.items ≡ out.old.items ++ turn_of line.now turn.now.reply turn.now.released.items) }
    ensures front { KeepsFront out.old.items out.new.items }
{
    answer_text(line, &turn.reply, out)?;
    put_released(&turn.released, out)
}

// Appends the answers of statements that went on.
fn put_released(released: &[Spoken], out: &mut Vec<u8>) -> Result<(), Memory>
    requires { All HasItsLetter released.now }
    ensures ok { OnOk result (out.new.items ≡ out.old.items ++ flat_map spoken_of released.now) }
    ensures front { KeepsFront out.old.items out.new.items }
{
    for spoken in released {
        session_text(spoken.session, &spoken.reply, out)?;
    }
    Ok(())
}
