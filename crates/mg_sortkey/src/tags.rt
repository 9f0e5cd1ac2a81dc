//! The first byte of a key, by the kind of its value.

/// The only byte of the key of NULL.
pub const NULL_TAG: u8 = 0;
/// The first byte of the key of a BIGINT.
pub const INT_TAG: u8 = 1;
/// The first byte of the key of a text.
pub const TEXT_TAG: u8 = 2;
/// What follows a zero byte of a text, but for those at its end.
pub const ESCAPE: u8 = 255;
