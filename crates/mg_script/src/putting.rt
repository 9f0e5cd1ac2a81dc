//! Words and numbers that are put behind a text. Where memory runs out a part of them may stand there.

ghost use Rattle.std.specs.Prelude.{◌≡◌, ◌++◌, decimal, OnOk};
ghost use Rattle.mg_value.specs.Values.{KeepsFront};

use itoa::Buffer;
use mg_base::Memory;

/// Appends a word.
///
/// # Errors
///
/// `Memory` only. Then a part of it may stand in `out`.
pub fn put_word(out: &mut Vec<u8>, word: &str) -> Result<(), Memory>
    ensures ok { OnOk result (out.new.items ≡ out.old.items ++ word.now) }
    ensures front { KeepsFront out.old.items out.new.items }
{
    out.extend_from_slice(word.as_bytes())?;
    Ok(())
}

/// Appends a number.
///
/// # Errors
///
/// `Memory` only. Then a part of it may stand in `out`.
pub fn put_number(out: &mut Vec<u8>, number: u64) -> Result<(), Memory>
    ensures ok { OnOk result (out.new.items ≡ out.old.items ++ decimal number) }
    ensures front { KeepsFront out.old.items out.new.items }
{
    let mut buffer = Buffer::new();
    out.extend_from_slice(buffer.format(number).as_bytes())?;
    Ok(())
}

/// Appends a word and a number.
pub(crate) fn put_named(out: &mut Vec<u8>, word: &str, number: u32) -> Result<(), Memory>
    ensures ok { OnOk result (out.new.items ≡ out.old.items ++ (word.now ++ decimal number)) }
    ensures front { KeepsFront out.old.items out.new.items }
{
    put_word(out, word)?;
    put_number(out, u64::from(number))
}

/// Appends two words, each with a number.
pub(crate) fn put_two_named(
    out: &mut Vec<u8>,
    word: &str,
    number: u32,
    second: &str,
    other: u32,
) -> Result<(), Memory>
    ensures ok { OnOk result (out.new.items
        ≡ out.old.items ++ (word.now ++ decimal number ++ second.now ++ decimal other)) }
    ensures front { KeepsFront out.old.items out.new.items }
{
    put_named(out, word, number)?;
    put_named(out, second, other)
}

/// Appends a word and a number of 64 bits.
pub(crate) fn put_count(out: &mut Vec<u8>, word: &str, number: u64) -> Result<(), Memory>
    ensures ok { OnOk result (out.new.items ≡ out.old.items ++ (word.now ++ decimal number)) }
    ensures front { KeepsFront out.old.items out.new.items }
{
    put_word(out, word)?;
    put_number(out, number)
}
