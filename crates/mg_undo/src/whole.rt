//! Whether a table's row is among the rows of the catalog that go.

ghost use Rattle.std.specs.Prelude.{◌≡◌, ◌↔◌, ◌∷◌, IsTrue};
ghost use Rattle.mg_model.specs.Catalog.{table_key};
ghost use Rattle.mg_model.specs.Changes.{same_key};
ghost use Rattle.mg_undo.specs.Whole.{is_one_of};

use mg_value::{Key, Value};

/// Tells whether a text is the letter of a table's row and the table's name.
fn is_table_text(text: &[u8], name: &[u8]) -> bool
    ensures { IsTrue result ↔ (text.now ≡ 84 ∷ name.now) }
{
    match text.split_first() {
        None => false,
        Some((letter, rest)) => *letter == b'T' && rest == name,
    }
}

/// Tells whether a key is that of a table's row in the catalog.
fn is_table_key(key: &Value, name: &[u8]) -> bool
    ensures { result ≡ same_key key.now (table_key name.now) }
{
    match key {
        Value::Null => false,
        Value::Int(_) => false,
        Value::Text(text) => is_table_text(text.as_slice(), name),
    }
}

/// Tells whether one of some keys is that of a table's row in the catalog.
pub fn has_table_key(keys: &[Key], name: &[u8]) -> bool
    ensures { result ≡ is_one_of keys.now (table_key name.now) }
{
    let mut rest = keys;
    while let Some((key, later)) = rest.split_first() {
        if is_table_key(key.value(), name) {
            return true;
        }
        rest = later;
    }
    false
}
