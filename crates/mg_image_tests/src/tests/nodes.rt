//! Index pages of 1024 bytes made by hand, byte by byte.

use super::cells::put_zeros;
use super::pages::SIZE;
use std::alloc::Global;
use std::test::Fail;

/// The fields of an index page: its level, how many entries it has, its right neighbour, where its
/// entries end, and which fences it has: 1 for the low one, and 2 for the high one.
pub type Fields = [u8; 5];

// What stands before the fences of an index page of a table.
fn front_of(page: u8, owner: u8, fields: Fields) -> [u8; 28] {
    let [level, count, right, end, fences] = fields;
    [
        7, 0, 0, 0, page, 0, 0, 0, owner, 0, 0, 0, 0, 0, 0, 0, level, 0, count, 0, right, 0, 0, 0,
        end, 0, fences, 0,
    ]
}

/// The front of an index page of a table, behind which its fences and its entries are put.
pub fn begun(alloc: Global, page: u8, owner: u8, fields: Fields) -> Result<Vec<u8>, Fail> {
    Ok(front_of(page, owner, fields).to_vec(alloc)?)
}

/// Appends zeros up to the size of a page.
pub fn pad(bytes: &mut Vec<u8>) -> Result<(), Fail> {
    put_zeros(bytes, SIZE.saturating_sub(bytes.len()))
}

// Appends the entry of a key and of the record of a slot of page 6.
fn put_key(bytes: &mut Vec<u8>, key: u8, slot: u8) -> Result<(), Fail> {
    bytes.extend_from_slice(&[9, 0, 1, 128, 0, 0, 0, 0, 0, 0, key, 6, 0, 0, 0, slot, 0])?;
    Ok(())
}

// Appends the entries of keys, each of the record of a slot of page 6.
fn put_keys(bytes: &mut Vec<u8>, keys: &[(u8, u8)]) -> Result<(), Fail> {
    for (key, slot) in keys {
        put_key(bytes, *key, *slot)?;
    }
    Ok(())
}

/// An index page of KV that is a leaf with these keys, fewer than ten, each of the record of a slot
/// of page 6.
pub fn leaf(alloc: Global, page: u8, keys: &[(u8, u8)]) -> Result<Vec<u8>, Fail> {
    let count = (keys.len() % 10) as u8;
    let mut bytes = begun(alloc, page, 5, [0, count, 0, 28 + 17 * count, 0])?;
    put_keys(&mut bytes, keys)?;
    pad(&mut bytes)?;
    Ok(bytes)
}
