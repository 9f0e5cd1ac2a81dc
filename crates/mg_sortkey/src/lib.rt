//! Key bytes: the value of an indexed column as bytes that order as values do, NULL first, and of
//! which none is a prefix of another.
//!
//! Owns: the bytes of a key.
//!
//! | value | bytes |
//! |---|---|
//! | NULL | 00 |
//! | a BIGINT | 01, then its 8 bytes, the highest first, with the sign bit turned over |
//! | a text | 02, its bytes with each 00 as 00 ff, then 00 00 |
//!
//! The longest key has 9 bytes for a BIGINT, and 2 * m + 3 for VARCHAR(m).
//!
//! Below: `mg_value`. Above: the indexes, and the plain reading of an image.
//! Not here: where a key stands on a page.
#![tactic(auto)]

mod key;
mod laws;
mod tags;

pub use key::{key_bytes, key_most};
pub use laws::{keys_are_short, keys_order_as_values, keys_tell_values, no_key_is_prefix};
pub use tags::{ESCAPE, INT_TAG, NULL_TAG, TEXT_TAG};
