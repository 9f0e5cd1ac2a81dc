//! What is printed of a line.

ghost use Rattle.std.specs.Prelude.{◌≡◌, ◌<◌, ◌∷◌, ◌++◌, [], codes, decimal, if◌then◌else◌, OnErr, OnOk};
ghost use Rattle.std.specs.List.{flat_map};
ghost use Rattle.mg_script.specs.Transcript.{HasLetter, gone_on, got, joined, printed_of, reply_text, row_line, got_row, rows_in, said, worded};
ghost use Rattle.mg_script.specs.declared.line.TheConstants.{SESSIONS};
ghost use Rattle.mg_value.specs.Values.{KeepsFront, printed};
ghost use Rattle.mg_script.specs.Lines.{letter};

use crate::line::{Line, LineKind, Session};
use crate::putting::{put_count, put_named, put_word};
use crate::refusal::put_fault;
use crate::reply::Reply;
use mg_base::Memory;
use mg_rows::{Outcome, StatementFault};
use mg_value::{Row, Value, print};

/// Appends what is printed of a line that is answered so, each line with its end.
///
/// # Errors
///
/// `Memory` only. Then `out` is as before.
pub fn answer_text(line: &Line, reply: &Reply, out: &mut Vec<u8>) -> Result<(), Memory>
    requires { HasLetter line.now.kind }
    ensures ok { OnOk result
        (out.new.items ≡ out.old.items ++ printed_of line.now.number line.now.kind reply.now) }
    ensures err { OnErr result (out.new.items ≡ out.old.items) }
{
    let before = out.len();
    let result = put_answer(line.number, &line.kind, reply, out);
    if result.is_err() {
        out.truncate(before);
    }
    result
}

/// Appends what a session is answered, each line with its end.
///
/// # Errors
///
/// `Memory` only. Then `out` is as before.
pub fn session_text(session: Session, reply: &Reply, out: &mut Vec<u8>) -> Result<(), Memory>
    requires { session.0 < SESSIONS }
    ensures ok { OnOk result (out.new.items ≡ out.old.items ++ said session reply.now) }
    ensures err { OnErr result (out.new.items ≡ out.old.items) }
{
    let begun = out.len();
    let result = put_said(session, reply, out);
    if result.is_err() {
        out.truncate(begun);
    }
    result
}

// Appends what is printed of a line. Where memory runs out, a part of it may stand in `out`.
fn put_answer(number: u32, kind: &LineKind, reply: &Reply, out: &mut Vec<u8>) -> Result<(), Memory>
    requires { HasLetter kind.now }
    ensures ok { OnOk result (out.new.items ≡ out.old.items ++ printed_of number kind.now reply.now) }
    ensures front { KeepsFront out.old.items out.new.items }
{
    match kind {
        LineKind::Sql { session, .. } => put_said(*session, reply, out),
        LineKind::Held { session, .. } => put_said(*session, reply, out),
        LineKind::Step { session, .. } => put_gone_on("@step", *session, reply, out),
        LineKind::Go { session } => put_gone_on("@go", *session, reply, out),
        LineKind::Write { .. } => put_worded("@write", reply, out),
        LineKind::Collect => put_worded("@collect", reply, out),
        LineKind::Sweep { .. } => put_worded("@sweep", reply, out),
        LineKind::Prepare { .. } => put_worded("@prepare", reply, out),
        LineKind::Put { .. } => put_worded("@put", reply, out),
        LineKind::Get { .. } => put_got(reply, out),
        LineKind::Silent => Ok(()),
        LineKind::Bad => put_bad(number, out),
    }
}

// Appends the line of a bad line.
fn put_bad(number: u32, out: &mut Vec<u8>) -> Result<(), Memory>
    ensures ok { OnOk result (out.new.items
        ≡ out.old.items ++ (codes "line " ++ decimal number ++ (codes ": BAD LINE" ++ (10 ∷ [])))) }
    ensures front { KeepsFront out.old.items out.new.items }
{
    put_named(out, "line ", number)?;
    put_word(out, ": BAD LINE\n")
}

// Appends the answer of a session: its rows, and the answer line.
fn put_said(session: Session, reply: &Reply, out: &mut Vec<u8>) -> Result<(), Memory>
    requires { session.0 < SESSIONS }
    ensures ok { OnOk result (out.new.items ≡ out.old.items ++ said session reply.now) }
    ensures front { KeepsFront out.old.items out.new.items }
{
    put_rows(session, reply, out)?;
    put_letter(session, out)?;
    put_text(reply, out)
}

// Appends the lines of a reply's rows.
fn put_rows(session: Session, reply: &Reply, out: &mut Vec<u8>) -> Result<(), Memory>
    requires { session.0 < SESSIONS }
    ensures ok { OnOk result
        (out.new.items ≡ out.old.items ++ flat_map (row_line session) (rows_in reply.now)) }
    ensures front { KeepsFront out.old.items out.new.items }
{
    match reply {
        Reply::Ok(Outcome::Rows(rows)) => put_row_lines(session, rows.as_slice(), out),
        Reply::Ok(Outcome::Count(_))
        | Reply::Ok(Outcome::Fine)
        | Reply::Tx(_)
        | Reply::No(_)
        | Reply::Held
        | Reply::Bad => Ok(()),
    }
}

// Appends the lines of some rows.
fn put_row_lines(session: Session, rows: &[Row], out: &mut Vec<u8>) -> Result<(), Memory>
    requires { session.0 < SESSIONS }
    ensures ok { OnOk result
        (out.new.items ≡ out.old.items ++ flat_map (row_line session) rows.now) }
    ensures front { KeepsFront out.old.items out.new.items }
{
    for row in rows {
        put_row_line(session, row, out)?;
    }
    Ok(())
}

// Appends the line of a row.
fn put_row_line(session: Session, row: &Row, out: &mut Vec<u8>) -> Result<(), Memory>
    requires { session.0 < SESSIONS }
    ensures ok { OnOk result (out.new.items ≡ out.old.items ++ row_line session row.now) }
    ensures front { KeepsFront out.old.items out.new.items }
{
    put_letter(session, out)?;
    put_word(out, "| ")?;
    put_values(row.as_slice(), out)?;
    put_word(out, "\n")
}

/// Appends the values of a row, with a comma and a blank between neighbours.
///
/// # Errors
///
/// `Memory` only. Then a part of them may stand in `out`.
pub fn put_values(values: &[Value], out: &mut Vec<u8>) -> Result<(), Memory>
    ensures ok { OnOk result (out.new.items ≡ out.old.items ++ joined values.now) }
    ensures front { KeepsFront out.old.items out.new.items }
{
    let mut rest = values;
    while let Some((value, more)) = rest.split_first() {
        put_value(value, !more.is_empty(), out)?;
        rest = more;
    }
    Ok(())
}

// Appends a value, and what stands between it and the next one, if there is one.
fn put_value(value: &Value, has_next: bool, out: &mut Vec<u8>) -> Result<(), Memory>
    ensures ok { OnOk result (out.new.items
        ≡ out.old.items ++ (printed value.now ++ (if has_next then codes ", " else []))) }
    ensures front { KeepsFront out.old.items out.new.items }
{
    print(value, out)?;
    if has_next {
        put_word(out, ", ")?;
    }
    Ok(())
}

// Appends the letter of a session.
fn put_letter(session: Session, out: &mut Vec<u8>) -> Result<(), Memory>
    requires { session.0 < SESSIONS }
    ensures ok { OnOk result (out.new.items ≡ out.old.items ++ (letter session ∷ [])) }
    ensures front { KeepsFront out.old.items out.new.items }
{
    out.push(b'A' + session.0)?;
    Ok(())
}

// Appends the answer of a held statement that was to go on.
fn put_gone_on(word: &str, session: Session, reply: &Reply, out: &mut Vec<u8>) -> Result<(), Memory>
    requires { session.0 < SESSIONS }
    ensures ok { OnOk result (out.new.items ≡ out.old.items ++ gone_on word.now session reply.now) }
    ensures front { KeepsFront out.old.items out.new.items }
{
    match reply {
        Reply::No(StatementFault::NothingHeld) => put_worded(word, reply, out),
        _ => put_said(session, reply, out),
    }
}

// Appends the answer line of a word.
fn put_worded(word: &str, reply: &Reply, out: &mut Vec<u8>) -> Result<(), Memory>
    ensures ok { OnOk result (out.new.items ≡ out.old.items ++ worded word.now reply.now) }
    ensures front { KeepsFront out.old.items out.new.items }
{
    put_word(out, word)?;
    put_text(reply, out)
}

// Appends the text of a reply behind a colon, with the line's end.
fn put_text(reply: &Reply, out: &mut Vec<u8>) -> Result<(), Memory>
    ensures ok { OnOk result
        (out.new.items ≡ out.old.items ++ (codes ": " ++ (reply_text reply.now ++ (10 ∷ [])))) }
    ensures front { KeepsFront out.old.items out.new.items }
{
    put_word(out, ": ")?;
    put_reply(reply, out)?;
    put_word(out, "\n")
}

// Appends the text of a reply.
fn put_reply(reply: &Reply, out: &mut Vec<u8>) -> Result<(), Memory>
    ensures ok { OnOk result (out.new.items ≡ out.old.items ++ reply_text reply.now) }
    ensures front { KeepsFront out.old.items out.new.items }
{
    match reply {
        Reply::Ok(Outcome::Fine) => put_word(out, "OK"),
        Reply::Ok(Outcome::Count(count)) => put_count(out, "OK ", *count),
        Reply::Ok(Outcome::Rows(rows)) => put_count(out, "OK ", rows.as_slice().len() as u64),
        Reply::Tx(t) => put_named(out, "OK TX ", t.0),
        Reply::No(fault) => put_fault(out, *fault),
        Reply::Held => put_word(out, "HELD"),
        Reply::Bad => put_word(out, "BAD LINE"),
    }
}

// Appends the answer to a reading of one value.
fn put_got(reply: &Reply, out: &mut Vec<u8>) -> Result<(), Memory>
    ensures ok { OnOk result (out.new.items ≡ out.old.items ++ got reply.now) }
    ensures front { KeepsFront out.old.items out.new.items }
{
    match reply {
        Reply::Ok(Outcome::Rows(rows)) => put_row_got(rows.as_slice(), out),
        Reply::Ok(Outcome::Count(_))
        | Reply::Ok(Outcome::Fine)
        | Reply::Tx(_)
        | Reply::No(_)
        | Reply::Held
        | Reply::Bad => put_worded("@get", reply, out),
    }
}

// Appends the values of the row that was found, or that there is none.
fn put_row_got(rows: &[Row], out: &mut Vec<u8>) -> Result<(), Memory>
    ensures ok { OnOk result (out.new.items ≡ out.old.items ++ got_row rows.now) }
    ensures front { KeepsFront out.old.items out.new.items }
{
    put_word(out, "@get: ")?;
    match rows.first() {
        Some(row) => put_values(row.as_slice(), out)?,
        None => put_word(out, "NONE")?,
    }
    put_word(out, "\n")
}
