//! A range of keys.

ghost use Rattle.std.specs.Prelude.{◌≡◌};
ghost use Rattle.mg_paths.specs.Ranges.{is_above as is_above_test, is_below as is_below_test, lies_in};

use mg_value::{Key, Value, order};

/// The values from one key to another, both of them in it. An end that is None is open. NULL lies in no range.
#[derive(Debug, Drop)]
pub struct Range {
    pub low: Option<Key>,
    pub high: Option<Key>,
}

impl Range {
    /// Tells whether a value lies in the range.
    pub fn contains(&self, value: &Value) -> bool
        ensures { result ≡ lies_in self.now value.now }
    {
        !value.is_null() && is_above(&self.low, value) && is_below(&self.high, value)
    }
}

/// Tells whether a value is at a low end or above it.
fn is_above(low: &Option<Key>, value: &Value) -> bool
    ensures { result ≡ is_above_test low.now value.now }
{
    match low {
        Some(low) => order(value, low.value()).is_ge(),
        None => true,
    }
}

/// Tells whether a value is at a high end or below it.
fn is_below(high: &Option<Key>, value: &Value) -> bool
    ensures { result ≡ is_below_test high.now value.now }
{
    match high {
        Some(high) => order(value, high.value()).is_le(),
        None => true,
    }
}
