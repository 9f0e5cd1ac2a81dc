//! Cells of data pages made by hand: records of the table KV, and rows of the catalog.

use std::alloc::Global;
use std::test::Fail;

/// A row of the catalog: its key, its name, the numbers A to D, and the transaction that wrote it.
/// A name without letters is NULL.
pub type Said = (&'static [u8], &'static [u8], [u8; 4], u8);

/// The row of the column K of KV.
pub const K: Said = (b"CKV.00", b"K", [0, 3, 1, 0], 0);

/// The row of its column V.
pub const V: Said = (b"CKV.01", b"V", [0, 0, 1, 1], 0);

/// The row of the table KV from page 5 on, which has no index.
pub const KV: Said = (b"TKV", b"", [5, 2, 0, 0], 0);

/// A cell. A version leads to those on a page that is told beside it.
#[derive(Clone, Copy)]
pub enum Laid {
    /// An anchor to a slot and a transaction.
    Anchor(u8, u8),
    /// A version by a transaction of a row of KV.
    First(u8, u8, u8),
    /// One over that of a slot and a transaction.
    Over(u8, (u8, u8), u8, u8),
    /// A deletion of a key over such a one.
    Erased(u8, (u8, u8), u8),
    /// A row of the catalog.
    Row(Said),
    /// One over that of a slot and a transaction.
    RowOver((u8, u8), Said),
}

/// Two versions of the row 1 of KV: transaction 1 wrote 10, transaction 2 wrote 20 over it.
pub const TWO: &[Laid] = &[
    Laid::Anchor(2, 2),
    Laid::First(1, 1, 10),
    Laid::Over(2, (1, 1), 1, 20),
];

/// Appends so many zero bytes.
pub fn put_zeros(bytes: &mut Vec<u8>, count: usize) -> Result<(), Fail> {
    for _ in 0..count {
        bytes.push(0)?;
    }
    Ok(())
}

// Appends a text, with as many zero bytes as a column of this width needs.
fn put_text(bytes: &mut Vec<u8>, text: &[u8], width: usize) -> Result<(), Fail> {
    bytes.extend_from_slice(&[(text.len() % 256) as u8, 0])?;
    bytes.extend_from_slice(text)?;
    put_zeros(bytes, width.saturating_sub(text.len()))
}

// Appends numbers of eight bytes each.
fn put_numbers(bytes: &mut Vec<u8>, numbers: [u8; 4]) -> Result<(), Fail> {
    let [a, b, c, d] = numbers;
    bytes.extend_from_slice(&[
        a, 0, 0, 0, 0, 0, 0, 0, b, 0, 0, 0, 0, 0, 0, 0, c, 0, 0, 0, 0, 0, 0, 0, d, 0, 0, 0, 0, 0,
        0, 0,
    ])?;
    Ok(())
}

// Appends the bytes of a row of the catalog.
fn put_said(bytes: &mut Vec<u8>, said: &Said) -> Result<(), Fail> {
    bytes.push(if said.1.is_empty() { 2 } else { 0 })?;
    put_text(bytes, said.0, 40)?;
    put_text(bytes, said.1, 31)?;
    put_numbers(bytes, said.2)
}

// The bytes of a version of a row of the catalog that begins so.
fn row_of(alloc: Global, front: &[u8], said: &Said) -> Result<Vec<u8>, Fail> {
    let mut bytes = front.to_vec(alloc)?;
    put_said(&mut bytes, said)?;
    Ok(bytes)
}

// These bytes, as they stand.
fn bytes_of(alloc: Global, bytes: &[u8]) -> Result<Vec<u8>, Fail> {
    Ok(bytes.to_vec(alloc)?)
}

/// The bytes of a cell whose versions stand on a page.
pub fn cell_of(alloc: Global, page: u8, cell: Laid) -> Result<Vec<u8>, Fail> {
    match cell {
        Laid::Anchor(slot, tx) => bytes_of(alloc, &[1, page, 0, 0, 0, slot, 0, tx, 0, 0, 0]),
        Laid::First(tx, k, v) => bytes_of(
            alloc,
            &[
                2, 0, 1, 0, tx, 0, 0, 0, 0, k, 0, 0, 0, 0, 0, 0, 0, v, 0, 0, 0, 0, 0, 0, 0,
            ],
        ),
        Laid::Over(tx, back, k, v) => bytes_of(
            alloc,
            &[
                2, 2, 1, 0, tx, 0, 0, 0, page, 0, 0, 0, back.0, 0, back.1, 0, 0, 0, 0, k, 0, 0, 0,
                0, 0, 0, 0, v, 0, 0, 0, 0, 0, 0, 0,
            ],
        ),
        Laid::Erased(tx, back, k) => bytes_of(
            alloc,
            &[
                2, 3, 1, 0, tx, 0, 0, 0, page, 0, 0, 0, back.0, 0, back.1, 0, 0, 0, 2, k, 0, 0, 0,
                0, 0, 0, 0, 0, 0, 0, 0, 0, 0, 0, 0,
            ],
        ),
        Laid::Row(said) => row_of(alloc, &[2, 0, 1, 0, said.3, 0, 0, 0], &said),
        Laid::RowOver(back, said) => row_of(
            alloc,
            &[
                2, 2, 1, 0, said.3, 0, 0, 0, page, 0, 0, 0, back.0, 0, back.1, 0, 0, 0,
            ],
            &said,
        ),
    }
}
