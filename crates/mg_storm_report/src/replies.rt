//! What stands behind the history: bad lines, and what sessions were answered.

ghost use Rattle.std.specs.Prelude.{◌≡◌, ◌<◌, ◌≤◌, ◌++◌, length, OnOk};
ghost use Rattle.std.specs.List.{flat_map};
ghost use Rattle.mg_script.specs.declared.line.TheConstants.{SESSIONS};
ghost use Rattle.mg_script.specs.declared.line.LineKind.TheVariants as kinds;
ghost use Rattle.mg_script.specs.declared.reply.Reply.TheVariants as replies;
ghost use Rattle.mg_script.specs.Transcript.{printed_of};
ghost use Rattle.mg_interleavings.specs.Texts.{said_at_once};
ghost use Rattle.mg_storm_report.specs.Report.{answers_from, answers_in, bad_text, is_bad as is_bad_of, replies_text};

use mg_base::Memory;
use mg_interleavings::{Answered, answered_text};
use mg_script::{Line, LineKind, Reply, Session, answer_text, put_word};

/// Appends the word REPLIES, the texts of the bad lines of a script, and what each session was answered, A first.
///
/// # Errors
///
/// `Memory` only. Then a part of them may stand in `out`.
pub fn put_replies(
    lines: &[Line],
    answers: &[Vec<Answered>],
    out: &mut Vec<u8>,
) -> Result<(), Memory>
    requires { length answers.now ≤ SESSIONS }
    ensures { OnOk result (out.new.items ≡ out.old.items ++ replies_text lines.now (answers_in answers.now)) }
{
    put_word(out, "REPLIES\n")?;
    put_bad_lines(lines, out)?;
    put_answers(answers, out)
}

// Appends the texts of the bad lines.
fn put_bad_lines(lines: &[Line], out: &mut Vec<u8>) -> Result<(), Memory>
    ensures { OnOk result (out.new.items ≡ out.old.items ++ flat_map bad_text lines.now) }
{
    for line in lines {
        put_if_bad(line, out)?;
    }
    Ok(())
}

// Appends the text of a line, where it is bad.
fn put_if_bad(line: &Line, out: &mut Vec<u8>) -> Result<(), Memory>
    ensures { OnOk result (out.new.items ≡ out.old.items ++ bad_text line.now) }
{
    if is_bad(&line.kind) {
        put_bad(line.number, out)
    } else {
        Ok(())
    }
}

// Whether no session obeys a line of this form, and it is none that prints nothing.
fn is_bad(kind: &LineKind) -> bool
    ensures { result ≡ is_bad_of kind.now }
{
    match kind {
        LineKind::Sql { .. } | LineKind::Silent => false,
        _ => true,
    }
}

// Appends the text of a bad line.
fn put_bad(number: u32, out: &mut Vec<u8>) -> Result<(), Memory>
    ensures { OnOk result (out.new.items ≡ out.old.items ++ printed_of number kinds.Bad replies.Bad) }
{
    let line = Line {
        number,
        kind: LineKind::Bad,
    };
    let reply = Reply::Bad;
    answer_text(&line, &reply, out)
}

// Appends what the sessions were answered, one session after another.
fn put_answers(answers: &[Vec<Answered>], out: &mut Vec<u8>) -> Result<(), Memory>
    requires { length answers.now ≤ SESSIONS }
    ensures { OnOk result (out.new.items ≡ out.old.items ++ answers_from 0 (answers_in answers.now)) }
{
    let mut session = 0u8;
    let mut rest = answers;
    while let Some((own, later)) = rest.split_first() {
        put_own(Session(session), own, out)?;
        session += 1;
        rest = later;
    }
    Ok(())
}

// Appends what a session was answered.
fn put_own(session: Session, answers: &[Answered], out: &mut Vec<u8>) -> Result<(), Memory>
    requires { session.0 < SESSIONS }
    ensures { OnOk result (out.new.items ≡ out.old.items ++ flat_map (said_at_once session) answers.now) }
{
    for answered in answers {
        answered_text(session, answered, out)?;
    }
    Ok(())
}
