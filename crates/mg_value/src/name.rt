//! The names of tables, columns, indexes and savepoints.

ghost use Rattle.std.specs.Prelude.{◌≡◌, ◌↔◌, map, Contains, IsTrue, IsSome, IfSome};
ghost use Rattle.std.specs.List.{list_all};
ghost use Rattle.mg_value.specs.Names.{IsName, IsReserved, is_capital as capital_test, is_name_byte as name_byte_test};

use std::marker::Model;

/// A name has at most this many bytes.
pub const MOST_NAME: usize = 31;

// The limit, written once more: a slip in one of them is refused.
const _: () = prove!(MOST_NAME == 31);

/// The words of the grammar, which are no names.
pub const RESERVED: [&[u8]; 43] = [
    b"SET",
    b"TRANSACTION",
    b"READ",
    b"WRITE",
    b"ONLY",
    b"WAIT",
    b"NO",
    b"ISOLATION",
    b"LEVEL",
    b"SNAPSHOT",
    b"COMMITTED",
    b"COMMIT",
    b"WORK",
    b"ROLLBACK",
    b"TO",
    b"SAVEPOINT",
    b"CREATE",
    b"TABLE",
    b"BIGINT",
    b"VARCHAR",
    b"NOT",
    b"NULL",
    b"PRIMARY",
    b"KEY",
    b"INDEX",
    b"ON",
    b"INSERT",
    b"INTO",
    b"VALUES",
    b"UPDATE",
    b"WHERE",
    b"DELETE",
    b"FROM",
    b"SELECT",
    b"ORDER",
    b"BY",
    b"ASC",
    b"DESC",
    b"COUNT",
    b"SUM",
    b"OR",
    b"AND",
    b"IS",
];

fn is_same(a: &[u8], b: &[u8]) -> bool
    ensures { IsTrue result ↔ (a.now ≡ b.now) }
{
    a == b
}

/// Tells whether the bytes are one of these words.
fn is_one_of(words: &[&[u8]], bytes: &[u8]) -> bool
    ensures { IsTrue result ↔ Contains (map (λ word. word.now) words.now) bytes.now }
{
    for word in words {
        if is_same(word, bytes) {
            return true;
        }
    }
    false
}

/// Tells whether the bytes are a word of the grammar.
fn is_reserved(bytes: &[u8]) -> bool
    ensures { IsTrue result ↔ IsReserved bytes.now }
{
    is_one_of(&RESERVED, bytes)
}

fn is_capital(byte: u8) -> bool
    ensures { result ≡ capital_test byte }
{
    b'A' <= byte && byte <= b'Z'
}

fn is_name_byte(byte: u8) -> bool
    ensures { result ≡ name_byte_test byte }
{
    is_capital(byte) || (b'0' <= byte && byte <= b'9') || byte == b'_' || byte == b'$'
}

fn are_name_bytes(bytes: &[u8]) -> bool
    ensures { result ≡ list_all name_byte_test bytes.now }
{
    bytes.iter().all(|byte| is_name_byte(*byte))
}

/// Tells whether the bytes are a name.
fn is_name(bytes: &[u8]) -> bool
    ensures { IsTrue result ↔ IsName bytes.now }
{
    if bytes.is_empty() || bytes.len() > MOST_NAME {
        return false;
    }
    if !is_capital(bytes[0]) || !are_name_bytes(bytes) {
        return false;
    }
    !is_reserved(bytes)
}

/// The name of a table, a column, an index or a savepoint: 1 to 31 bytes, which are capital
/// letters, digits, `_` and `$`, the first one a letter, and no word of the grammar.
///
/// Source: Firebird, regular identifiers.
#[derive(Clone, Copy, Debug, PartialEq, Eq)]
pub struct Name {
    bytes: [u8; MOST_NAME],
    len: u8,
}

impl Model for Name {
    ghost use Rattle.std.specs.Prelude.{◌≡◌, ◌+◌, ◌-◌, ◌≤◌, ◌++◌, List, ℕ, length, take, replicate};
    ghost use Rattle.std.proofs.Common.{arith, sym, ◌∙◌, ap, length-take-le};
    ghost use Rattle.std.specs.List.{list_all};
    ghost use Rattle.mg_value.specs.Names.{IsName};

    ghost Value = { List ℕ };

    ghost view = { λ name. take name.len name.bytes };

    // Behind the name stand zeros, so equal names are equal bytes.
    ghost invariant = { λ name. (name.len ≤ 31) × (length name.bytes ≡ 31)
        × (name.bytes ≡ take name.len name.bytes ++ replicate (31 - name.len) 0)
        × IsName (take name.len name.bytes) };

    ghost inverse = { λ bytes.
        record { bytes = bytes ++ replicate (31 - length bytes) 0; len = length bytes } };

    ghost inverse_ok = { λ name h i. record {
      bytes = (ap (λ (n : ℕ). take name.len name.bytes ++ replicate (31 - n) 0)
          (length-take-le name.len name.bytes (omega (arith, h.0, h.1))) ∙ sym h.2) i;
      len = length-take-le name.len name.bytes (omega (arith, h.0, h.1)) i;
    } };
}

impl Name {
    /// The name of these bytes: None exactly where they are no name.
    pub fn new(bytes: &[u8]) -> Option<Name>
        ensures named { IsSome result ↔ IsName bytes.now }
        ensures bytes { IfSome result (λ name. name ≡ bytes.now) }
    {
        if !is_name(bytes) {
            return None;
        }
        let mut stored = [0; MOST_NAME];
        stored[..bytes.len()].copy_from_slice(bytes);
        Some(Name {
            bytes: stored,
            len: bytes.len() as u8,
        })
    }

    /// Its bytes: a capital letter, then capitals, digits, `_` and `$`.
    pub fn as_slice(&self) -> &[u8]
        ensures bytes { result.now ≡ self.now }
        ensures named { IsName self.now }
    {
        &self.bytes[..self.len as usize]
    }
}
