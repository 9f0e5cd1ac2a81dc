//! What the bytes of a token stand for.

ghost use Rattle.std.specs.Prelude.{◌≡◌, ◌<◌, ◌≤◌, ◌^◌, ◌==◌, if◌then◌else◌, pos, length, MatchOption, IfOk};
ghost use Rattle.mg_sql.specs.Reading.{IsSize};
ghost use Rattle.mg_sql.specs.Spelling.{IsSpelled, number, capitals, quoted};
ghost use Rattle.mg_sql.specs.declared.token.Kind.TheVariants as kinds;

use crate::scanning::capital;
use mg_base::Memory;
use mg_statements::MOST_SIZE;
use mg_value::{Name, Txt};
use std::alloc::Global;

/// The number that digits spell, if it fits.
pub(crate) fn number_of(digits: &[u8]) -> Option<i64>
    requires { IsSpelled kinds.Integer digits.now }
    ensures { MatchOption result (9223372036854775807 < number digits.now)
        (λ z. (number digits.now ≤ 9223372036854775807) × (z ≡ pos (number digits.now))) }
{
    let mut number: u64 = 0;
    for digit in digits {
        number = number
            .saturating_mul(10)
            .saturating_add((*digit - b'0') as u64);
    }
    if number > 9223372036854775807 {
        return None;
    }
    Some(number as i64)
}

/// The length of a text that digits spell, if it may be one.
pub(crate) fn size_of(digits: &[u8]) -> Option<u16>
    requires { IsSpelled kinds.Integer digits.now }
    ensures { MatchOption result (IsSize (number digits.now) → ⊥)
        (λ n. (n ≡ number digits.now) × IsSize n) }
{
    let number = number_of(digits)?;
    if number < 1 || number > MOST_SIZE as i64 {
        return None;
    }
    Some(number as u16)
}

/// The bytes between the quotes of a text.
fn unquoted(alloc: Global, bytes: &[u8]) -> Result<Vec<u8>, Memory>
    requires { IsSpelled kinds.Text bytes.now }
    ensures { IfOk result (λ value. bytes.now ≡ quoted value.items) }
{
    let mut value = Vec::new(alloc);
    let mut at = 1;
    while at + 1 < bytes.len() {
        value.push(bytes[at])?;
        at += width(bytes[at]);
    }
    Ok(value)
}

/// How many bytes a byte of a text takes between its quotes.
fn width(byte: u8) -> usize
    ensures is { result ≡ (if byte == 39 then 2 else 1) }
    ensures some { 0 < result }
{
    if byte == b'\'' { 2 } else { 1 }
}

/// The text between quotes.
pub(crate) fn text_of(alloc: Global, bytes: &[u8]) -> Result<Txt, Memory>
    requires { IsSpelled kinds.Text bytes.now }
    ensures { IfOk result (λ text. bytes.now ≡ quoted text) }
{
    Ok(Txt::of_bytes(unquoted(alloc, bytes)?))
}

/// Writes a word in capitals.
fn fold(word: &[u8], into: &mut [u8])
    requires { length into.old ≡ length word.now }
    ensures { into.new ≡ capitals word.now }
{
    for (at, byte) in word.iter().enumerate() {
        into[at] = capital(*byte);
    }
}

/// The name that a word is, which is here in capitals.
fn named(word: &[u8], folded: &[u8]) -> Option<Name>
    requires word { IsSpelled kinds.Name word.now }
    requires short { length word.now ≤ 31 }
    requires folded { folded.now ≡ capitals word.now }
    ensures { MatchOption result ⊥ (λ name. name ≡ capitals word.now) }
{
    Name::new(folded)
}

/// The name that a word is, in capitals, if it is short enough.
pub(crate) fn name_of(word: &[u8]) -> Option<Name>
    requires { IsSpelled kinds.Name word.now }
    ensures { MatchOption result (31 < length word.now) (λ name. (length word.now ≤ 31) × (name ≡ capitals word.now)) }
{
    if word.len() > 31 {
        return None;
    }
    let mut bytes = [0; 31];
    let folded = &mut bytes[..word.len()];
    fold(word, folded);
    named(word, folded)
}
