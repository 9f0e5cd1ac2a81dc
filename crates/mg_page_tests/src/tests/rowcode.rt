//! Rows and the bytes that they are stored as.

use super::appended::{begun, is_appended};
use super::cases::{Case, hold_each};
use super::values::{Said, Told, row_of, shape_of};
use mg_rowcode::{RowFault, decode_row, encode_row};
use mg_value::{Kind, MOST_COLUMNS, Row, Shape, print, row_fits};
use std::alloc::Global;
use std::test::Fail;

/// Two numbers, the first one not NULL.
const KV: &[Told] = &[(b"K", Kind::Int, true, 1), (b"K", Kind::Int, false, 1)];

/// A text of at most 3 bytes that isn't NULL, and from format 2 on a number.
const TEXTS: &[Told] = &[(b"T", Kind::Text(3), true, 1), (b"T", Kind::Int, false, 2)];

/// A number, and nine of them.
const NUMBER: Told = (b"C", Kind::Int, false, 1);

const NINE: &[Told] = &[NUMBER; 9];

/// Prints the values of a row, each with a blank behind it.
fn printed(alloc: Global, row: &Row) -> Result<Vec<u8>, Fail> {
    let mut out = Vec::new(alloc);
    for value in row.as_slice() {
        print(value, &mut out)?;
        out.push(b' ')?;
    }
    Ok(out)
}

/// The row that these bytes are read as.
fn read(alloc: Global, s: &Shape, format: u16, packed: &[u8]) -> Result<Row, RowFault> {
    if s.columns.as_slice().len() > MOST_COLUMNS || packed.len() >= 2_147_483_648 {
        return Err(RowFault::Memory);
    }
    decode_row(alloc, s, format, packed)
}

/// Tells whether a row is stored so, behind a byte that is there.
fn is_stored(alloc: Global, s: &Shape, row: &Row, packed: &[u8]) -> Result<bool, Fail> {
    if !row_fits(s, row) {
        return Ok(false);
    }
    let mut out = begun(alloc)?;
    encode_row(s, row, &mut out)?;
    Ok(is_appended(&out, packed))
}

/// What the row that is read of these bytes prints.
fn text_of(alloc: Global, s: &Shape, format: u16, packed: &[u8]) -> Result<Vec<u8>, Fail> {
    let row = read(alloc, s, format, packed)?;
    printed(alloc, &row)
}

/// Columns, a format, a row, and the bytes that it is stored as.
struct Stored(&'static [Told], u16, &'static [Said], &'static [u8]);

/// Tells whether a row is stored so, and read again.
fn is_case(alloc: Global, s: &Shape, row: &Row, case: &Stored) -> Result<bool, Fail> {
    let again = text_of(alloc, s, case.1, case.3)?;
    let is_again = again.as_slice() == printed(alloc, row)?.as_slice();
    Ok(is_again && is_stored(alloc, s, row, case.3)?)
}

impl Case for Stored {
    fn holds(&self, alloc: Global) -> Result<bool, Fail> {
        let shape = shape_of(alloc, self.0)?;
        let row = row_of(alloc, self.2)?;
        is_case(alloc, &shape, &row, self)
    }
}

/// Rows are stored as their bytes.
const STORED: &[Stored] = &[
    // The vector of the format is a row of KV.
    Stored(
        KV,
        1,
        &[Said::Int(1), Said::Int(10)],
        &[2, 0, 1, 0xf9, 0, 1, 10, 0xf9, 0],
    ),
    // NULL is bit 1 of the first byte, and eight zeros; -1 is eight bytes 255.
    Stored(
        KV,
        1,
        &[Said::Int(-1), Said::Null],
        &[1, 2, 0xf8, 0xff, 0xf8, 0],
    ),
    // A text has its length before it and zeros behind it: 00 | 02 00 61 62 00 | eight zeros.
    Stored(
        TEXTS,
        2,
        &[Said::Text(b"ab"), Said::Int(0)],
        &[5, 0, 2, 0, 0x61, 0x62, 0xf7, 0],
    ),
    // Nine columns have two bytes of bits: ff 01 | 72 zeros.
    Stored(NINE, 1, &[Said::Null; 9], &[2, 0xff, 1, 0xb8, 0]),
];

/// Bytes of the table of texts in a format, and what the row that they are read as prints.
struct Shown(u16, &'static [u8], &'static [u8]);

/// Tells whether the row that is read of these bytes prints so.
fn shows(alloc: Global, s: &Shape, case: &Shown) -> Result<bool, Fail> {
    let text = text_of(alloc, s, case.0, case.1)?;
    Ok(text.as_slice() == case.2)
}

impl Case for Shown {
    fn holds(&self, alloc: Global) -> Result<bool, Fail> {
        let shape = shape_of(alloc, TEXTS)?;
        shows(alloc, &shape, self)
    }
}

/// A column that came after the format is NULL: 00 | 01 00 61 00 00.
const SHORT: &[Shown] = &[Shown(1, &[6, 0, 1, 0, 0x61, 0, 0], b"'a' NULL ")];

/// Bytes that are no row of the table of texts in format 1, and their fault.
struct Refused(&'static [u8], RowFault);

impl Case for Refused {
    fn holds(&self, alloc: Global) -> Result<bool, Fail> {
        let shape = shape_of(alloc, TEXTS)?;
        Ok(read(alloc, &shape, 1, self.0).err() == Some(self.1))
    }
}

/// Other bytes are refused where no row goes on as they do.
const REFUSED: &[Refused] = &[
    // NULL where none is allowed, and an unused bit.
    Refused(&[6, 1, 0, 0, 1, 0, 0], RowFault::BadRow { at: 0 }),
    Refused(&[6, 2, 1, 0, 1, 0, 0], RowFault::BadRow { at: 0 }),
    // A length of 4, one of 258 of which the first byte is lawful, and a byte behind the text.
    Refused(&[6, 0, 4, 0, 1, 2, 3], RowFault::BadRow { at: 1 }),
    Refused(&[6, 0, 2, 1, 1, 2, 3], RowFault::BadRow { at: 2 }),
    Refused(&[6, 0, 1, 0, 1, 0, 3], RowFault::BadRow { at: 5 }),
    Refused(&[0xfd, 0, 3, 9, 0, 3], RowFault::BadRow { at: 3 }),
    // Too short, too long, and no packed text.
    Refused(&[4, 0, 1, 0, 1], RowFault::BadRow { at: 4 }),
    Refused(&[7, 0, 1, 0, 1, 0, 0, 9], RowFault::BadRow { at: 6 }),
    Refused(&[2, 1, 2, 1, 3], RowFault::BadRun { at: 3 }),
    Refused(&[], RowFault::BadRow { at: 0 }),
];

#[test]
fn rows_are_stored_as_their_bytes_and_others_are_refused_where_no_row_goes_on_as_they_do(
    rt: HostRuntime,
) -> Result<(), Fail> {
    hold_each(&rt, rt.alloc(), STORED)?;
    hold_each(&rt, rt.alloc(), SHORT)?;
    hold_each(&rt, rt.alloc(), REFUSED)
}
