//! The orders of rows.

ghost use Rattle.std.specs.Prelude.{◌≡◌};
ghost use Rattle.mg_value.specs.Values.{value_cmp};
ghost use Rattle.mg_rows.specs.Orders.{value_at as value_at_place, keyed_cmp, directed as directed_order, column_cmp, AreSorted};

use mg_value::{Key, Row, Value, order};
use std::cmp::Ordering;

/// The order of a SELECT's rows.
#[derive(Clone, Copy, Debug, PartialEq, Eq)]
pub struct OrderBy {
    /// The place of the column by which the rows are ordered.
    pub place: u16,
    pub descending: bool,
}

/// The order of the values in a column of two rows. A row that ends before the column has NULL there.
fn order_at(a: &Row, b: &Row, place: u16) -> Ordering
    ensures { result ≡ value_cmp (value_at_place place a.now) (value_at_place place b.now) }
{
    let null = Value::Null;
    let x = a.as_slice().get(place as usize).unwrap_or(&null);
    let y = b.as_slice().get(place as usize).unwrap_or(&null);
    order(x, y)
}

/// An order, the other way round where it descends.
fn directed(descending: bool, order: Ordering) -> Ordering
    ensures { result ≡ directed_order descending order }
{
    if descending { order.reverse() } else { order }
}

/// The order of two rows by a column, and where they tie there by the primary key.
fn order_by(a: &Row, b: &Row, by: OrderBy, key: u16) -> Ordering
    ensures { result ≡ column_cmp by key a.now b.now }
{
    directed(by.descending, order_at(a, b, by.place)).then(order_at(a, b, key))
}

/// The order of the keys of two rows.
fn order_of_keys(a: &(Key, Row), b: &(Key, Row)) -> Ordering
    ensures { result ≡ keyed_cmp a.now b.now }
{
    order(a.0.value(), b.0.value())
}

/// Sorts rows by their keys. It takes no memory.
pub fn sort_by_key(rows: &mut Vec<(Key, Row)>)
    ensures { AreSorted keyed_cmp rows.old.items rows.new.items }
{
    rows.sort_unstable_by(|a, b| order_of_keys(a, b));
}

/// Sorts rows by a column, NULL least, and where they tie there by their primary keys, whose column
/// is at a place, and which ascend also where the column descends. It takes no memory.
pub(crate) fn sort_by_column(rows: &mut Vec<Row>, by: OrderBy, key: u16)
    ensures { AreSorted (column_cmp by key) rows.old.items rows.new.items }
{
    rows.sort_unstable_by(|a, b| order_by(a, b, by, key));
}
