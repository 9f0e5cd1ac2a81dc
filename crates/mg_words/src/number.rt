//! The number that a text spells.

ghost use Rattle.std.specs.Prelude.{◌≡◌, ◌≢◌, ◌<◌, ◌^◌, ℕ, ℤ, decimal, MatchOption, FitsSigned};
ghost use Rattle.std.specs.Int.{w64};
ghost use Rattle.std.specs.Fmt.{signed_decimal};

use itoa::Buffer;
use std::str;

/// The number of at most 32 bits that a text spells, if it spells one.
pub fn unsigned(text: &[u8]) -> Option<u32>
    ensures { MatchOption result ((n : ℕ) → n < 2 ^ 32 → decimal n ≢ text.now)
        (λ n. (n < 2 ^ 32) × (decimal n ≡ text.now)) }
{
    let Ok(spelled) = str::from_utf8(text) else {
        return None;
    };
    let Ok(number) = spelled.parse::<u32>() else {
        return None;
    };
    let mut buffer = Buffer::new();
    if buffer.format(number).as_bytes() == text {
        Some(number)
    } else {
        None
    }
}

/// The signed number of 64 bits that a text spells, if it spells one.
pub fn signed(text: &[u8]) -> Option<i64>
    ensures { MatchOption result ((z : ℤ) → FitsSigned w64 z → signed_decimal z ≢ text.now)
        (λ z. FitsSigned w64 z × (signed_decimal z ≡ text.now)) }
{
    let Ok(spelled) = str::from_utf8(text) else {
        return None;
    };
    let Ok(number) = spelled.parse::<i64>() else {
        return None;
    };
    let mut buffer = Buffer::new();
    if buffer.format(number).as_bytes() == text {
        Some(number)
    } else {
        None
    }
}
