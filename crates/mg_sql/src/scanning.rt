//! Scanning: which token stands next.

ghost use Rattle.std.specs.Prelude.{◌≡◌, ◌≤◌, ◌<◌, ◌-◌, ◌+◌, ℕ, List, length, drop, take, Option, MatchOption, false, IsTrue, slice_index};
ghost use Rattle.std.specs.List.{list_all};
ghost use Rattle.mg_sql.specs.Spelling.{is_blank as blank_test, is_letter as letter_test, is_digit as digit_test, is_word_byte as word_test, spelling as spelling_of, capital as capital_of, capitals as capitals_of, IsSpelled, IsWord};
ghost use Rattle.mg_sql.specs.Reading.{Decides};
ghost use Rattle.mg_sql.specs.Lexing.{Stands, AreBlank, between, is_past as past_test};
ghost use Rattle.mg_sql.specs.Scanning.{Runs, single_of, pair_of, pair_at, IsOther, IsTextTo, BeginsNoText};

use crate::token::Kind;

/// A text of more than this many bytes is no statement: no token is read behind them.
pub const MOST_TEXT: usize = 65_536;

fn is_blank(byte: u8) -> bool
    ensures { result ≡ blank_test byte }
{
    byte == b' ' || byte == b'\t'
}

fn is_letter(byte: u8) -> bool
    ensures { result ≡ letter_test byte }
{
    (b'A' <= byte && byte <= b'Z') || (b'a' <= byte && byte <= b'z')
}

fn is_digit(byte: u8) -> bool
    ensures { result ≡ digit_test byte }
{
    b'0' <= byte && byte <= b'9'
}

fn is_word_byte(byte: u8) -> bool
    ensures { result ≡ word_test byte }
{
    is_letter(byte) || is_digit(byte) || byte == b'_' || byte == b'$'
}

/// Where the blanks end that begin at a place.
fn skip_blanks(text: &[u8], from: usize) -> usize
    requires { from ≤ length text.now }
    ensures { Runs blank_test text.now from result }
{
    let mut at = from;
    while at < text.len() && is_blank(text[at]) {
        at += 1;
    }
    at
}

/// Where the bytes of a word end that begins at a place.
fn word_end(text: &[u8], from: usize) -> usize
    requires { from ≤ length text.now }
    ensures { Runs word_test text.now from result }
{
    let mut at = from;
    while at < text.len() && is_word_byte(text[at]) {
        at += 1;
    }
    at
}

/// Where the digits end that begin at a place.
fn digits_end(text: &[u8], from: usize) -> usize
    requires { from ≤ length text.now }
    ensures { Runs digit_test text.now from result }
{
    let mut at = from;
    while at < text.len() && is_digit(text[at]) {
        at += 1;
    }
    at
}

/// Which symbol a byte is.
fn single(byte: u8) -> Option<Kind>
    ensures { result ≡ single_of byte }
{
    match byte {
        b'(' => Some(Kind::Open),
        b')' => Some(Kind::Close),
        b',' => Some(Kind::Comma),
        b';' => Some(Kind::Semicolon),
        b'*' => Some(Kind::Star),
        b'+' => Some(Kind::Plus),
        b'-' => Some(Kind::Minus),
        b'/' => Some(Kind::Slash),
        b'=' => Some(Kind::Equal),
        b'<' => Some(Kind::Less),
        b'>' => Some(Kind::Greater),
        _ => None,
    }
}

/// Which symbol two bytes are.
fn pair(first: u8, second: u8) -> Option<Kind>
    ensures { result ≡ pair_of first second }
{
    match (first, second) {
        (b'<', b'>') => Some(Kind::Unequal),
        (b'<', b'=') => Some(Kind::AtMost),
        (b'>', b'=') => Some(Kind::AtLeast),
        _ => None,
    }
}

/// Where the next token begins behind a place, and where it ends, and its kind.
pub(crate) fn scan(text: &[u8], from: usize) -> (usize, usize, Kind)
    requires { from ≤ length text.now }
    ensures blanks { AreBlank text.now from result.0 }
    ensures token { Stands text.now result.0 result.1 result.2 }
{
    let at = skip_blanks(text, from);
    let (end, kind) = token_at(text, at);
    (at, end, kind)
}

/// Whether no token is read at a place, since it is past the bound of a text.
fn is_past(text: &[u8], at: usize) -> bool
    ensures { result ≡ past_test text.now at }
{
    text.len() > MOST_TEXT && at >= MOST_TEXT
}

/// The token that stands at a place.
fn token_at(text: &[u8], at: usize) -> (usize, Kind)
    requires inside { at ≤ length text.now }
    requires bare { at < length text.now → blank_test (slice_index text.now at) ≡ false }
    ensures { Stands text.now at result.0 result.1 }
{
    if is_past(text, at) {
        return (at, Kind::Stray);
    }
    if at == text.len() {
        return (at, Kind::End);
    }
    let first = text[at];
    if is_letter(first) {
        let end = word_end(text, at);
        return (end, word_kind(&text[at..end]));
    }
    if is_digit(first) {
        return (digits_end(text, at), Kind::Integer);
    }
    if first == b'\'' {
        return quoted_at(text, at);
    }
    symbol_at(text, at)
}

/// The words of the grammar.
const WORDS: [Kind; 43] = [
    Kind::Set,
    Kind::Transaction,
    Kind::Read,
    Kind::Write,
    Kind::Only,
    Kind::Wait,
    Kind::No,
    Kind::Isolation,
    Kind::Level,
    Kind::Snapshot,
    Kind::Committed,
    Kind::Commit,
    Kind::Work,
    Kind::Rollback,
    Kind::To,
    Kind::Savepoint,
    Kind::Create,
    Kind::Table,
    Kind::Bigint,
    Kind::Varchar,
    Kind::Not,
    Kind::Null,
    Kind::Primary,
    Kind::Key,
    Kind::Index,
    Kind::On,
    Kind::Insert,
    Kind::Into,
    Kind::Values,
    Kind::Update,
    Kind::Where,
    Kind::Delete,
    Kind::From,
    Kind::Select,
    Kind::Order,
    Kind::By,
    Kind::Asc,
    Kind::Desc,
    Kind::Count,
    Kind::Sum,
    Kind::Or,
    Kind::And,
    Kind::Is,
];

/// How a word of the grammar or a symbol is written in capitals.
fn spelling(kind: Kind) -> &'static [u8]
    ensures { result.now ≡ spelling_of kind }
{
    match kind {
        Kind::Set => b"SET",
        Kind::Transaction => b"TRANSACTION",
        Kind::Read => b"READ",
        Kind::Write => b"WRITE",
        Kind::Only => b"ONLY",
        Kind::Wait => b"WAIT",
        Kind::No => b"NO",
        Kind::Isolation => b"ISOLATION",
        Kind::Level => b"LEVEL",
        Kind::Snapshot => b"SNAPSHOT",
        Kind::Committed => b"COMMITTED",
        Kind::Commit => b"COMMIT",
        Kind::Work => b"WORK",
        Kind::Rollback => b"ROLLBACK",
        Kind::To => b"TO",
        Kind::Savepoint => b"SAVEPOINT",
        Kind::Create => b"CREATE",
        Kind::Table => b"TABLE",
        Kind::Bigint => b"BIGINT",
        Kind::Varchar => b"VARCHAR",
        Kind::Not => b"NOT",
        Kind::Null => b"NULL",
        Kind::Primary => b"PRIMARY",
        Kind::Key => b"KEY",
        Kind::Index => b"INDEX",
        Kind::On => b"ON",
        Kind::Insert => b"INSERT",
        Kind::Into => b"INTO",
        Kind::Values => b"VALUES",
        Kind::Update => b"UPDATE",
        Kind::Where => b"WHERE",
        Kind::Delete => b"DELETE",
        Kind::From => b"FROM",
        Kind::Select => b"SELECT",
        Kind::Order => b"ORDER",
        Kind::By => b"BY",
        Kind::Asc => b"ASC",
        Kind::Desc => b"DESC",
        Kind::Count => b"COUNT",
        Kind::Sum => b"SUM",
        Kind::Or => b"OR",
        Kind::And => b"AND",
        Kind::Is => b"IS",
        Kind::Open => b"(",
        Kind::Close => b")",
        Kind::Comma => b",",
        Kind::Semicolon => b";",
        Kind::Star => b"*",
        Kind::Plus => b"+",
        Kind::Minus => b"-",
        Kind::Slash => b"/",
        Kind::Equal => b"=",
        Kind::Unequal => b"<>",
        Kind::Less => b"<",
        Kind::AtMost => b"<=",
        Kind::Greater => b">",
        Kind::AtLeast => b">=",
        Kind::Name | Kind::Integer | Kind::Text | Kind::End | Kind::Stray => b"",
    }
}

/// A byte as words fold it.
pub(crate) fn capital(byte: u8) -> u8
    ensures { result ≡ capital_of byte }
{
    if b'a' <= byte && byte <= b'z' {
        byte - 32
    } else {
        byte
    }
}

/// Whether bytes in capitals are those.
fn folds_to(word: &[u8], capitals: &[u8]) -> bool
    ensures { Decides (capitals_of word.now ≡ capitals.now) result }
{
    if word.len() != capitals.len() {
        return false;
    }
    for (at, byte) in word.iter().enumerate() {
        if capital(*byte) != capitals[at] {
            return false;
        }
    }
    true
}

/// The kind of a word: the word of the grammar that it is, or a name.
fn word_kind(word: &[u8]) -> Kind
    requires { IsWord word.now }
    ensures { IsSpelled result word.now }
{
    for kind in &WORDS {
        if folds_to(word, spelling(*kind)) {
            return *kind;
        }
    }
    Kind::Name
}

/// Where the longest text ends that stands at a place: a quote in it is doubled.
fn text_end(text: &[u8], from: usize) -> Option<usize>
    requires inside { from < length text.now }
    requires quote { slice_index text.now from ≡ 39 }
    ensures { MatchOption result (BeginsNoText text.now from) (λ end. IsTextTo text.now from end) }
{
    let mut closed = None;
    let mut at = from + 1;
    while at < text.len() {
        if text[at] != b'\'' {
            at += 1;
        } else if at + 1 < text.len() && text[at + 1] == b'\'' {
            closed = Some(at + 1);
            at += 2;
        } else {
            return Some(at + 1);
        }
    }
    closed
}

/// The token that stands at a quote.
fn quoted_at(text: &[u8], at: usize) -> (usize, Kind)
    requires inside { at < length text.now }
    requires early { past_test text.now at ≡ false }
    requires quote { slice_index text.now at ≡ 39 }
    ensures { Stands text.now at result.0 result.1 }
{
    match text_end(text, at) {
        Some(end) => (end, Kind::Text),
        None => (at, Kind::Stray),
    }
}

/// Which symbol the two bytes at a place are.
fn second(text: &[u8], at: usize) -> Option<Kind>
    requires inside { at < length text.now }
    ensures { result ≡ pair_at text.now at }
{
    if at + 1 < text.len() {
        pair(text[at], text[at + 1])
    } else {
        None
    }
}

/// The token that stands at a place where no word, number or text begins.
fn symbol_at(text: &[u8], at: usize) -> (usize, Kind)
    requires inside { at < length text.now }
    requires early { past_test text.now at ≡ false }
    requires bare { blank_test (slice_index text.now at) ≡ false }
    requires other { IsOther (slice_index text.now at) }
    ensures { Stands text.now at result.0 result.1 }
{
    if let Some(kind) = second(text, at) {
        return (at + 2, kind);
    }
    match single(text[at]) {
        Some(kind) => (at + 1, kind),
        None => (at, Kind::Stray),
    }
}
