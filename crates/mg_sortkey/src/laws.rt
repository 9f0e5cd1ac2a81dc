//! What is promised of key bytes, as the contracts of functions that do nothing.

ghost use Rattle.mg_sortkey.specs.KeyOrder.{KeysAreShort, KeysOrderAsValues, KeysTellValues, NoKeyIsPrefix};

/// Key bytes order as values do: NULL first, numbers as numbers, texts by their bytes.
pub fn keys_order_as_values()
    ensures { KeysOrderAsValues }
{}

/// Equal key bytes come from equal values alone.
pub fn keys_tell_values()
    ensures { KeysTellValues }
{}

/// The key bytes of no value are a prefix of another's.
pub fn no_key_is_prefix()
    ensures { NoKeyIsPrefix }
{}

/// A value that fits a kind has no more key bytes than `key_most` says.
pub fn keys_are_short()
    ensures { KeysAreShort }
{}
