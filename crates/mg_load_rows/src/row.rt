//! The values of one row.

ghost use Rattle.std.specs.Prelude.{◌≡◌, ◌≤◌, ◌<◌, ◌++◌, OnOk};
ghost use Rattle.mg_load_rows.specs.LoadRows.{group_in, key_in, note_in};

use itoa::Buffer;
use mg_base::Memory;

/// The most rows that are made.
pub const MOST_ROWS: u32 = 100_000;

/// How many keys there are, from 0 on.
pub const KEYS: u32 = 131_072;

/// How many groups there are, from 0 on.
pub const GROUPS: u32 = 100;

/// How far the key of the next row is.
pub(crate) const STEP: u64 = 40_503;

/// The key of a row, by its number.
pub fn key_of(i: u32) -> u32
    requires { i ≤ MOST_ROWS }
    ensures key { result ≡ key_in i }
    ensures below { result < KEYS }
{
    (u64::from(i) * STEP % u64::from(KEYS)) as u32
}

/// The group of a row, by its number.
pub fn group_of(i: u32) -> u32
    ensures group { result ≡ group_in i }
    ensures below { result < GROUPS }
{
    i % GROUPS
}

/// Appends some bytes.
fn put_bytes(out: &mut Vec<u8>, bytes: &[u8]) -> Result<(), Memory>
    ensures { OnOk result (out.new.items ≡ out.old.items ++ bytes.now) }
{
    Ok(out.extend_from_slice(bytes)?)
}

/// Appends the note of a row, by its number.
///
/// # Errors
///
/// `Memory` only. Then a part of it may stand in `out`.
pub fn put_note(out: &mut Vec<u8>, i: u32) -> Result<(), Memory>
    ensures { OnOk result (out.new.items ≡ out.old.items ++ note_in i) }
{
    put_bytes(out, b"row ")?;
    let mut buffer = Buffer::new();
    put_bytes(out, buffer.format(i).as_bytes())
}
