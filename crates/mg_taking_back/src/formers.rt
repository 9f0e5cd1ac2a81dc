//! What comes back of a key.

ghost use Rattle.std.specs.Prelude.{◌≡◌, ◌↔◌, IsTrue};
ghost use Rattle.mg_model.specs.Catalog.{key_of};
ghost use Rattle.mg_taking_back.specs.Formers.{MayComeBack};

use mg_undo::Was;
use mg_value::{Row, Shape, Value, order, values_are_ordered};
use std::cmp::Ordering;

/// Tells whether a row of a shape has a key.
fn has_key(shape: &Shape, row: &Row, key: &Value) -> bool
    ensures { IsTrue result ↔ (key_of shape.now row.now ≡ key.now) }
{
    values_are_ordered();
    match row.as_slice().get(usize::from(shape.key)) {
        None => key.is_null(),
        Some(value) => is_same(value, key),
    }
}

/// Tells whether two values are equal.
fn is_same(a: &Value, b: &Value) -> bool
    ensures { IsTrue result ↔ (a.now ≡ b.now) }
{
    values_are_ordered();
    matches!(order(a, b), Ordering::Equal)
}

/// Tells whether what was at a key may come back: a row has the key. What an engine keeps of its own changes always may.
pub(crate) fn may_come_back(shape: &Shape, key: &Value, was: &Was) -> bool
    ensures { IsTrue result ↔ MayComeBack shape.now key.now was.now }
{
    match was {
        Was::Untouched => true,
        Was::Deleted => true,
        Was::Row(row) => has_key(shape, row, key),
    }
}
