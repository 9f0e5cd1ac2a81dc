//! What a line comes to is printed.

ghost use Rattle.std.specs.Prelude.{◌≡◌, ◌≤◌, ◌<◌, ◌++◌, ◌∷◌, [], All, IfSome, List, ℕ, OnErr, OnOk, MatchOption, option_copied, true};
ghost use Rattle.mg_rows.specs.declared.statement_fault.StatementFault.TheVariants.{Engine};
ghost use Rattle.mg_run_ends.specs.Ends.{has_fixed_line as has_fixed_line_of};
ghost use Rattle.mg_script.specs.declared.reply.Reply.TheVariants.{No};
ghost use Rattle.mg_script.specs.Texts.{refusal_text};
ghost use Rattle.mg_script.specs.Transcript.{HasLetter};
ghost use Rattle.mg_script.specs.declared.line.TheConstants.{SESSIONS};
ghost use Rattle.mg_transcript.specs.Transcript.{HasItsLetter, turn_of};
ghost use Rattle.mg_scripts.specs.FaultLines.{fault_line, fault_said, last_fault, own_fault, session_head as session_head_of, spoken_fault};
ghost use Rattle.mg_scripts.specs.Printing.{PrintsLine, PrintsShort};

use crate::lines::LinesEnd;
use mg_base::Sink;
use mg_model::Refusal;
use mg_rows::StatementFault;
use mg_run_ends::{fixed_line, has_fixed_line};
use mg_script::{Line, LineKind, Reply, Session};
use mg_transcript::{Spoken, Turn, turn_text};
use std::alloc::Global;

/// How many bytes stand before the text of a refusal in its line outside of lines: `mgdb: `.
const OUTSIDE: usize = 6;

/// Puts what a line came to into the sink. The answer says why the run ends by it, if it does: memory was short, and
/// then the line of the answer that came last is put alone, where it is a fault whose text takes no memory; or the
/// sink failed. A line that prints nothing asks the sink for nothing.
pub(crate) fn print_turn<K: Sink>(
    alloc: Global,
    line: &Line,
    turn: &Turn,
    sink: &mut K,
) -> Option<LinesEnd>
    requires lettered { HasLetter line.now.kind }
    requires released { All HasItsLetter turn.now.released.items }
    ensures { PrintsLine K.meaning sink.old sink.new
        (turn_of line.now turn.now.reply turn.now.released.items)
        (fault_said line.now turn.now.reply turn.now.released.items) result }
{
    let mut text = Vec::new(alloc);
    match turn_text(line, turn, &mut text) {
        Ok(()) => put_text(&text, sink),
        Err(_) => Some(print_fault(line, turn, sink)),
    }
}

// Puts a text into the sink, if it is not empty.
fn put_text<K: Sink>(text: &[u8], sink: &mut K) -> Option<LinesEnd>
    ensures { (least : List ℕ) → PrintsLine K.meaning sink.old sink.new text.now least result }
{
    if text.is_empty() {
        return None;
    }
    match sink.put(text) {
        Ok(()) => None,
        Err(_) => Some(LinesEnd::SinkFailed),
    }
}

// Puts the line of the answer that came last, where it is a fault whose text takes no memory. So a run that stops by a
// fault of the disk, or for want of memory, says so however short memory is.
fn print_fault<K: Sink>(line: &Line, turn: &Turn, sink: &mut K) -> LinesEnd
    requires lettered { HasLetter line.now.kind }
    requires released { All HasItsLetter turn.now.released.items }
    ensures { PrintsShort K.meaning sink.old sink.new
        (fault_said line.now turn.now.reply turn.now.released.items) result }
{
    match last_spoken(&turn.released) {
        Some(spoken) => put_of_session(spoken.session, &spoken.reply, sink),
        None => put_own(&line.kind, &turn.reply, sink),
    }
}

// The statement that went on last, if one did.
fn last_spoken(released: &[Spoken]) -> Option<&Spoken>
    requires { All HasItsLetter released.now }
    ensures last { (before : List ℕ)
        → last_fault before released.now ≡ spoken_fault before (option_copied result) }
    ensures lettered { IfSome result (λ spoken. spoken.now.session.0 < SESSIONS) }
{
    released.last()
}

// Puts the line of a line's own answer.
fn put_own<K: Sink>(kind: &LineKind, reply: &Reply, sink: &mut K) -> LinesEnd
    requires { HasLetter kind.now }
    ensures { PrintsShort K.meaning sink.old sink.new (own_fault kind.now reply.now) result }
{
    match kind {
        LineKind::Sql { session, .. }
        | LineKind::Held { session, .. }
        | LineKind::Step { session, .. }
        | LineKind::Go { session } => put_of_session(*session, reply, sink),
        LineKind::Write { .. } => put_fault(b"@write: ", reply, sink),
        LineKind::Collect => put_fault(b"@collect: ", reply, sink),
        LineKind::Sweep { .. } => put_fault(b"@sweep: ", reply, sink),
        LineKind::Prepare { .. } => put_fault(b"@prepare: ", reply, sink),
        LineKind::Put { .. } => put_fault(b"@put: ", reply, sink),
        LineKind::Get { .. } => put_fault(b"@get: ", reply, sink),
        LineKind::Silent | LineKind::Bad => LinesEnd::NoMemory,
    }
}

// Puts the line of a session's answer.
fn put_of_session<K: Sink>(session: Session, reply: &Reply, sink: &mut K) -> LinesEnd
    requires { session.0 < SESSIONS }
    ensures { PrintsShort K.meaning sink.old sink.new (fault_line (session_head_of session) reply.now)
        result }
{
    let head = [b'A' + session.0, b':', b' '];
    put_fault(&head, reply, sink)
}

// Puts the line of an answer behind what stands before its text, if it is a fault whose text takes no memory.
fn put_fault<K: Sink>(head: &[u8], reply: &Reply, sink: &mut K) -> LinesEnd
    ensures { PrintsShort K.meaning sink.old sink.new (fault_line head.now reply.now) result }
{
    match reply {
        Reply::No(StatementFault::Engine(refusal)) => put_refusal(head, *refusal, sink),
        _ => LinesEnd::NoMemory,
    }
}

// The same of a refusal that was answered.
fn put_refusal<K: Sink>(head: &[u8], refusal: Refusal, sink: &mut K) -> LinesEnd
    ensures { PrintsShort K.meaning sink.old sink.new (fault_line head.now (No (Engine refusal))) result }
{
    if has_fixed_line(refusal) {
        return put_pieces(head, fixed_text(refusal), sink);
    }
    LinesEnd::NoMemory
}

// The text of a refusal that takes no memory, with the line's end.
fn fixed_text(refusal: Refusal) -> &'static [u8]
    requires { has_fixed_line_of refusal ≡ true }
    ensures { result.now ≡ refusal_text refusal ++ (10 ∷ []) }
{
    let (_, text) = fixed_line(refusal).split_at(OUTSIDE);
    text
}

// Puts two pieces into the sink.
fn put_pieces<K: Sink>(head: &[u8], text: &[u8], sink: &mut K) -> LinesEnd
    ensures { PrintsShort K.meaning sink.old sink.new (head.now ++ text.now) result }
{
    let Ok(()) = sink.put(head) else {
        return LinesEnd::SinkFailed;
    };
    match sink.put(text) {
        Ok(()) => LinesEnd::NoMemory,
        Err(_) => LinesEnd::SinkFailed,
    }
}
