//! Page inventory pages, bit by bit.

use super::broken::{Kind, is_lawful, number_of};
use super::bytes::{has_bytes, used_from};
use super::steps::{Step, go_each};
use mg_pip::{first_free, is_used, new_pip, set_used};

/// How many bits a page of 1024 bytes has.
const BITS: u32 = 8064;

/// The page of the first region, whose pages are all free.
pub fn new_page() -> [u8; 1024] {
    let mut page = [0u8; 1024];
    new_pip(&mut page, number_of(Kind::Inventory), 0);
    page
}

/// A call on a page, and what it does.
enum Call {
    /// A page whose bits are clear comes in its place.
    New,
    /// A bit is set or cleared; the byte that then stands at a place.
    Put(u32, bool, usize, u8),
    /// The first bits are set.
    Front(u32),
    /// All bits are set.
    Fill,
    /// The first free bit below a number.
    First(u32, Option<u32>),
    /// So many bytes have a used bit, and the page is lawful.
    Used(usize),
}

/// Sets or clears a bit, and tells whether it is so then.
fn put(page: &mut [u8; 1024], bit: u32, used: bool) -> bool {
    if bit >= BITS {
        return false;
    }
    set_used(page, bit, used);
    is_used(page, bit) == used
}

/// Sets each of the first bits, and tells whether it could.
fn put_front(page: &mut [u8; 1024], count: u32) -> bool {
    for bit in 0..count {
        if !put(page, bit, true) {
            return false;
        }
    }
    true
}

/// Tells whether this bit is the first free one below a number.
fn is_first(page: &[u8; 1024], below: u32, first: Option<u32>) -> bool {
    below <= BITS && first_free(page, below) == first
}

/// Sets all bits.
fn fill(page: &mut [u8; 1024]) -> bool {
    page[16..].fill(0xff);
    true
}

/// Puts a page whose bits are clear in its place.
fn renew(page: &mut [u8; 1024]) -> bool {
    *page = new_page();
    true
}

/// Tells whether so many bytes have a used bit, and the page is lawful.
fn has_used(page: &[u8; 1024], bytes: usize) -> bool {
    used_from(page, 16) == bytes && is_lawful(Kind::Inventory, page)
}

impl Step<[u8; 1024]> for Call {
    fn goes(&self, on: &mut [u8; 1024]) -> bool {
        match *self {
            Call::New => renew(on),
            Call::Put(bit, used, at, byte) => put(on, bit, used) && has_bytes(on, at, &[byte]),
            Call::Front(count) => put_front(on, count),
            Call::Fill => fill(on),
            Call::First(below, first) => is_first(on, below, first),
            Call::Used(bytes) => has_used(on, bytes),
        }
    }
}

const CALLS: &[Call] = &[
    // A bit is set and cleared alone.
    Call::Put(0, true, 16, 0x01),
    Call::Put(1, true, 16, 0x03),
    Call::Put(7, true, 16, 0x83),
    Call::Put(1, false, 16, 0x81),
    Call::Put(8, true, 17, 0x01),
    Call::Put(8063, true, 1023, 0x80),
    Call::Used(3),
    // The first free bit is the least clear one.
    Call::New,
    Call::First(0, None),
    Call::First(1, Some(0)),
    Call::Front(20),
    Call::First(20, None),
    Call::First(21, Some(20)),
    Call::First(8064, Some(20)),
    Call::Put(9, false, 17, 0xfd),
    Call::First(8064, Some(9)),
    Call::First(9, None),
    Call::Fill,
    Call::First(8064, None),
    Call::Put(8063, false, 1023, 0x7f),
    Call::First(8064, Some(8063)),
];

#[test]
fn a_bit_is_set_and_cleared_alone_and_the_first_free_one_is_the_least_clear_one(rt: HostRuntime) {
    go_each(&rt, &mut new_page(), CALLS);
}
