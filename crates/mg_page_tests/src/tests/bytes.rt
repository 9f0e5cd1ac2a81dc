//! Bytes of a page, by their places.

/// Puts a byte at its place of a page.
pub fn put_byte(page: &mut [u8; 1024], at: usize, byte: u8) {
    if let Some(cell) = page.get_mut(at) {
        *cell = byte;
    }
}

/// Tells whether these bytes stand at a place and behind it.
pub fn has_bytes(page: &[u8], at: usize, wanted: &[u8]) -> bool {
    match page.get(at..) {
        Some(rest) => rest.starts_with(wanted),
        None => false,
    }
}

/// Tells whether all bytes from a place on are zero.
pub fn is_zero_from(page: &[u8], at: usize) -> bool {
    match page.get(at..) {
        Some(rest) => rest.iter().all(|byte| *byte == 0),
        None => false,
    }
}

/// How many bytes from a place on are not zero.
pub fn used_from(page: &[u8], at: usize) -> usize {
    match page.get(at..) {
        Some(rest) => rest.iter().filter(|byte| **byte != 0).count(),
        None => 0,
    }
}
