//! Fields of bytes of any length: what lies past the end reads as 0.

ghost use Rattle.std.specs.Prelude.{◌≡◌, ◌<◌, ◌^◌, false, true, length, MatchOption};
ghost use Rattle.mg_base.specs.Fields.{byte, u16_at, u32_at};
ghost use Rattle.mg_base.specs.Geometry.{is_page_size};

/// The byte at a place.
pub(crate) fn byte_or_zero(b: &[u8], at: usize) -> u8
    ensures { result ≡ byte b.now at }
{
    b.get(at).copied().unwrap_or(0)
}

/// The field of two bytes at a place, the low byte first.
pub(crate) fn u16_or_zero(b: &[u8], at: usize) -> u16
    requires { at < 2 ^ 32 }
    ensures { result ≡ u16_at b.now at }
{
    u16::from_le_bytes([byte_or_zero(b, at), byte_or_zero(b, at + 1)])
}

/// The field of four bytes at a place, the low byte first.
pub(crate) fn u32_or_zero(b: &[u8], at: usize) -> u32
    requires { at < 2 ^ 40 }
    ensures { result ≡ u32_at b.now at }
{
    u32::from_le_bytes([
        byte_or_zero(b, at),
        byte_or_zero(b, at + 1),
        byte_or_zero(b, at + 2),
        byte_or_zero(b, at + 3),
    ])
}

/// How long bytes are, if a page may be so long.
pub(crate) fn page_size_of(b: &[u8]) -> Option<u32>
    ensures { MatchOption result (is_page_size (length b.now) ≡ false)
        (λ size. (size ≡ length b.now) × (is_page_size size ≡ true)) }
{
    match b.len() {
        1024 => Some(1024),
        2048 => Some(2048),
        4096 => Some(4096),
        8192 => Some(8192),
        16384 => Some(16384),
        _ => None,
    }
}
