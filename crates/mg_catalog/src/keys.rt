//! The keys of catalog rows, taken apart.

ghost use Rattle.std.specs.Prelude.{◌≡◌, ◌≢◌, ℕ, [], ◌∷◌, List, MatchOption};
ghost use Rattle.mg_value.specs.declared.value.Value.TheVariants.{Text as AnyText};
ghost use Rattle.mg_model.specs.Catalog.{column_key, two_digits};
ghost use Rattle.mg_catalog.specs.ByKey.{row_key};
ghost use Rattle.mg_catalog.specs.RowRules.{column_text};

use mg_value::{Row, Value};

/// The text of a row's key, empty where the key is no text.
fn key_text(row: &Row) -> Option<&[u8]>
    ensures { MatchOption result
        ((text : List ℕ) → row_key row.now ≢ AnyText text)
        (λ text. row_key row.now ≡ AnyText text.now) }
{
    let Some(Value::Text(text)) = row.as_slice().first() else {
        return None;
    };
    Some(text.as_slice())
}

/// What follows a letter in the key of a row, if the key begins with it.
pub(crate) fn row_name(row: &Row, letter: u8) -> Option<&[u8]>
    ensures { MatchOption result
        ((name : List ℕ) → row_key row.now ≢ AnyText (letter ∷ name))
        (λ name. row_key row.now ≡ AnyText (letter ∷ name.now)) }
{
    let Some(text) = key_text(row) else {
        return None;
    };
    let Some((first, name)) = text.split_first() else {
        return None;
    };
    if *first == letter { Some(name) } else { None }
}

/// Two decimal digits as the place that they spell. The first may go past 9.
fn two_digits_of(tens: u8, ones: u8) -> Option<u64>
    ensures { MatchOption result
        ((place : ℕ) → tens ∷ ones ∷ [] ≢ two_digits place)
        (λ place. tens ∷ ones ∷ [] ≡ two_digits place) }
{
    if tens < b'0' || ones < b'0' || ones > b'9' {
        return None;
    }
    Some(10 * u64::from(tens - b'0') + u64::from(ones - b'0'))
}

/// The table and the place of a column, from what follows the letter of its key.
fn table_and_place(text: &[u8]) -> Option<(&[u8], u64)>
    ensures { MatchOption result
        ((table : List ℕ) (place : ℕ) → text.now ≢ column_text table place)
        (λ found. text.now ≡ column_text found.0.now found.1) }
{
    if text.len() < 3 {
        return None;
    }
    let (table, tail) = text.split_at(text.len() - 3);
    if tail[0] != b'.' {
        return None;
    }
    let Some(place) = two_digits_of(tail[1], tail[2]) else {
        return None;
    };
    Some((table, place))
}

/// The table and the place of a column, from the key of its row.
pub(crate) fn row_column(row: &Row) -> Option<(&[u8], u64)>
    ensures { MatchOption result
        ((table : List ℕ) (place : ℕ) → row_key row.now ≢ column_key table place)
        (λ found. row_key row.now ≡ column_key found.0.now found.1) }
{
    let Some(text) = row_name(row, b'C') else {
        return None;
    };
    table_and_place(text)
}
