//! The bits of a page inventory page.

ghost use Rattle.std.specs.Prelude.{◌≡◌, ◌≢◌, ◌<◌, ◌≤◌, ◌==◌, ℕ, length, MatchOption};
ghost use Rattle.mg_base.specs.Fields.{byte};
ghost use Rattle.mg_pip.specs.PipPage.{AllUsed, IsFirstFree, IsFirstOpenByte, SetsUsed, bit_of as bit_in, bits, used_in};

use crate::BITS_AT;

/// A byte of which every bit is set.
const FULL: u8 = 0xff;

/// The bit at a place of a byte, the lowest at 0.
fn bit_of(byte: u8, place: u32) -> u8
    requires { place < 8 }
    ensures { result ≡ bit_in byte place }
{
    match place {
        0 => byte % 2,
        1 => byte / 2 % 2,
        2 => byte / 4 % 2,
        3 => byte / 8 % 2,
        4 => byte / 16 % 2,
        5 => byte / 32 % 2,
        6 => byte / 64 % 2,
        _ => byte / 128,
    }
}

/// A byte with the bit at one of its places set to 0 or 1.
fn with_bit(byte: u8, place: u32, bit: u8) -> u8
    requires place { place < 8 }
    requires bit { bit < 2 }
    ensures set { bit_in result place ≡ bit }
    ensures others { (other : ℕ) → other < 8 → other ≢ place
        → bit_in result other ≡ bit_in byte other }
{
    match place {
        0 => byte - byte % 2 + bit,
        1 => byte - byte / 2 % 2 * 2 + bit * 2,
        2 => byte - byte / 4 % 2 * 4 + bit * 4,
        3 => byte - byte / 8 % 2 * 8 + bit * 8,
        4 => byte - byte / 16 % 2 * 16 + bit * 16,
        5 => byte - byte / 32 % 2 * 32 + bit * 32,
        6 => byte - byte / 64 % 2 * 64 + bit * 64,
        _ => byte - byte / 128 * 128 + bit * 128,
    }
}

/// Tells whether a bit of the page is set, counted from 0.
#[tactic(auto, unfolding(crate::specs::PipPage::used_in))]
pub fn is_used(b: &[u8], bit: u32) -> bool
    requires { bit < bits (length b.now) }
    ensures { result ≡ used_in b.now bit }
{
    bit_of(b[BITS_AT + bit as usize / 8], bit % 8) == 1
}

/// Sets or clears a bit of the page, counted from 0.
pub fn set_used(b: &mut [u8], bit: u32, used: bool)
    requires { bit < bits (length b.old) }
    ensures { SetsUsed b.old b.new bit used }
{
    let at = BITS_AT + bit as usize / 8;
    b[at] = with_bit(b[at], bit % 8, u8::from(used));
}

/// The least clear bit below `below`, `None` exactly where each of them is set.
pub fn first_free(b: &[u8], below: u32) -> Option<u32>
    requires page { BITS_AT ≤ length b.now }
    requires below { below ≤ bits (length b.now) }
    ensures { MatchOption result (AllUsed b.now below) (λ bit. IsFirstFree b.now below bit) }
{
    let end = BITS_AT + (below as usize + 7) / 8;
    let at = first_open_byte(b, end)?;
    let bit = (at - BITS_AT) as u32 * 8 + first_open_bit(b[at]);
    if bit < below { Some(bit) } else { None }
}

/// The first byte of bits before `end` in which some bit is clear.
fn first_open_byte(b: &[u8], end: usize) -> Option<usize>
    requires { end ≤ length b.now }
    ensures { MatchOption result ((at : ℕ) → BITS_AT ≤ at → at < end → byte b.now at ≡ FULL)
        (λ at. IsFirstOpenByte b.now end at) }
{
    for at in BITS_AT..end {
        if b[at] != FULL {
            return Some(at);
        }
    }
    None
}

/// The lowest clear bit of a byte that has one.
fn first_open_bit(byte: u8) -> u32
    requires { byte ≢ FULL }
    ensures clear { bit_in byte result ≡ 0 }
    ensures inside { result < 8 }
    ensures least { (other : ℕ) → other < result → bit_in byte other ≡ 1 }
{
    for place in 0..7 {
        if bit_of(byte, place) == 0 {
            return place;
        }
    }
    7
}
