//! Reading a line: what it asks for.

ghost use Rattle.std.specs.Prelude.{◌≡◌, ◌≢◌, ◌≤◌, ◌<◌, ◌∷◌, ◌++◌, ◌^◌, ℕ, ℤ, true, false, List, codes, decimal, IfOk, MatchOption, ◌↔◌, FitsSigned};
ghost use Rattle.std.specs.Int.{w64};
ghost use Rattle.std.specs.Fmt.{signed_decimal};
ghost use Rattle.mg_script.specs.Lines.{Asks, IsGet, IsLine, IsPut, IsStep, MayBeHeld, NamesNumber, NamesSession, has_statement, letter, takes_steps};
ghost use Rattle.mg_script.specs.declared.line.LineKind.{LineKind as AnyKind};
ghost use Rattle.mg_script.specs.declared.line.LineKind.TheVariants as kinds;
ghost use Rattle.mg_script.specs.declared.line.Session.{Session as AnySession};
ghost use Rattle.mg_statements.specs.Plain.{plain_of};

use crate::line::{LineKind, MOST_STEPS, SESSIONS, Session};
use crate::splitting::{behind, two_numbers};
use mg_base::{Bytes, Memory};
use mg_sql::{parse, statements_have_no_fault, texts_are_one_statement};
use mg_statements::{SqlFault, Statement, let_go};
use mg_words::{signed, unsigned};
use std::alloc::Global;

/// Reads one line, without its end.
///
/// # Errors
///
/// `Memory` only.
pub(crate) fn read_line(alloc: Global, text: &[u8]) -> Result<LineKind, Memory>
    ensures { IfOk result (IsLine text.now) }
{
    if let Some(kind) = read_word(text) {
        return Ok(kind);
    }
    if let Some(kind) = read_statement(alloc, text)? {
        return Ok(kind);
    }
    Ok(LineKind::Bad)
}

// A line that is none of a session's with a statement.
fn read_word(text: &[u8]) -> Option<LineKind>
    ensures { MatchOption result
        ((kind : AnyKind) → has_statement kind ≡ false → Asks text.now kind → ⊥)
        (λ kind. (kind ≢ kinds.Bad) × Asks text.now kind) }
{
    if text.is_empty() || text.starts_with(b"--") {
        return Some(LineKind::Silent);
    }
    if text == b"@collect".as_slice() {
        return Some(LineKind::Collect);
    }
    if let Some((key, value)) = read_put(text) {
        return Some(LineKind::Put { key, value });
    }
    if let Some(key) = read_get(text) {
        return Some(LineKind::Get { key });
    }
    if let Some((session, most)) = read_step(text) {
        return Some(LineKind::Step { session, most });
    }
    if let Some(session) = session_behind(text, b"@go ") {
        return Some(LineKind::Go { session });
    }
    if let Some(session) = session_behind(text, b"@prepare ") {
        return Some(LineKind::Prepare { session });
    }
    if let Some(most) = number_behind(text, b"@write ") {
        return Some(LineKind::Write { most });
    }
    match number_behind(text, b"@sweep ") {
        Some(most) => Some(LineKind::Sweep { most }),
        None => None,
    }
}

// A session's line with a statement.
fn read_statement(alloc: Global, text: &[u8]) -> Result<Option<LineKind>, Memory>
    ensures { IfOk result (λ found. MatchOption found
        ((kind : AnyKind) → has_statement kind ≡ true → Asks text.now kind → ⊥)
        (λ kind. (kind ≢ kinds.Bad) × Asks text.now kind)) }
{
    let Some((first, rest)) = text.split_first() else {
        return Ok(None);
    };
    let Some(session) = read_session(*first) else {
        return Ok(None);
    };
    if let Some(sql) = behind(rest, b": ") {
        let text = Bytes::new(Vec::from_slice(alloc, sql)?);
        return Ok(Some(LineKind::Sql { session, text }));
    }
    let Some(sql) = behind(rest, b"~ ") else {
        return Ok(None);
    };
    if !may_be_held(alloc, sql)? {
        return Ok(None);
    }
    let text = Bytes::new(Vec::from_slice(alloc, sql)?);
    Ok(Some(LineKind::Held { session, text }))
}

// Whether a text may stand behind `~`.
fn may_be_held(alloc: Global, text: &[u8]) -> Result<bool, Memory>
    ensures { IfOk result (λ is. (is ≡ true) ↔ MayBeHeld text.now) }
{
    texts_are_one_statement();
    statements_have_no_fault();
    match parse(alloc, text) {
        Ok(statement) => {
            let is = is_in_steps(&statement);
            let_go(statement);
            Ok(is)
        }
        Err(SqlFault::Memory) => Err(Memory),
        Err(SqlFault::Syntax { .. }) => Ok(true),
        Err(SqlFault::NameTooLong { .. }) => Ok(true),
        Err(SqlFault::NumberTooLarge { .. }) => Ok(true),
        Err(SqlFault::TooDeep { .. }) => Ok(true),
    }
}

// Whether a statement takes steps.
fn is_in_steps(statement: &Statement) -> bool
    ensures { result ≡ takes_steps (plain_of statement.now) }
{
    match statement {
        Statement::Commit
        | Statement::Insert { .. }
        | Statement::Update { .. }
        | Statement::Delete { .. }
        | Statement::Totals { .. }
        | Statement::Select { .. } => true,
        Statement::SetTransaction { .. }
        | Statement::Rollback
        | Statement::RollbackTo { .. }
        | Statement::Savepoint { .. }
        | Statement::Table { .. } => false,
    }
}

// The key and the value of a line `@put K V`.
fn read_put(text: &[u8]) -> Option<(i64, i64)>
    ensures { MatchOption result ((key value : ℤ) → IsPut text.now key value → ⊥)
        (λ both. IsPut text.now both.0 both.1) }
{
    let Some(numbers) = behind(text, b"@put ") else {
        return None;
    };
    let Some(both) = two_numbers(numbers, b" ") else {
        return None;
    };
    Some(both)
}

// The key of a line `@get K`.
fn read_get(text: &[u8]) -> Option<i64>
    ensures { MatchOption result ((key : ℤ) → IsGet text.now key → ⊥) (λ key. IsGet text.now key) }
{
    let Some(spelled) = behind(text, b"@get ") else {
        return None;
    };
    signed(spelled)
}

// The session and the number of a line `@step A n`.
fn read_step(text: &[u8]) -> Option<(Session, u32)>
    ensures { MatchOption result
        ((session : AnySession) (most : ℕ) → IsStep text.now session most → ⊥)
        (λ both. IsStep text.now both.0 both.1) }
{
    let Some(named) = behind(text, b"@step ") else {
        return None;
    };
    let Some((first, others)) = named.split_first() else {
        return None;
    };
    let Some(session) = read_session(*first) else {
        return None;
    };
    let Some(most) = number_behind(others, b" ") else {
        return None;
    };
    if most == 0 || most > MOST_STEPS {
        return None;
    }
    Some((session, most))
}

// The session that a line names behind a word.
fn session_behind(text: &[u8], word: &[u8]) -> Option<Session>
    ensures { MatchOption result ((session : AnySession) → NamesSession text.now word.now session → ⊥)
        (NamesSession text.now word.now) }
{
    let Some(named) = behind(text, word) else {
        return None;
    };
    let Some((first, others)) = named.split_first() else {
        return None;
    };
    if !others.is_empty() {
        return None;
    }
    read_session(*first)
}

// The number that stands in a line behind a word.
fn number_behind(text: &[u8], word: &[u8]) -> Option<u32>
    ensures { MatchOption result ((number : ℕ) → NamesNumber text.now word.now number → ⊥)
        (NamesNumber text.now word.now) }
{
    let Some(spelled) = behind(text, word) else {
        return None;
    };
    unsigned(spelled)
}

// The session of a letter A to P.
fn read_session(spelled: u8) -> Option<Session>
    ensures { MatchOption result
        ((session : AnySession) → session.0 < SESSIONS → letter session ≢ spelled)
        (λ session. (session.0 < SESSIONS) × (letter session ≡ spelled)) }
{
    if spelled < b'A' || spelled >= b'A' + SESSIONS {
        return None;
    }
    Some(Session(spelled - b'A'))
}
