//! How values print.

ghost use Rattle.std.specs.Prelude.{◌≡◌, ◌++◌, OnOk, OnErr};
ghost use Rattle.std.specs.List.{flat_map};
ghost use Rattle.mg_value.specs.Values.{printed, quoted, doubled, KeepsFront};

use crate::Value;
use mg_base::Memory;

const QUOTE: u8 = b'\'';

/// Appends a byte of a text, twice where it is a quote.
fn put_byte(byte: u8, out: &mut Vec<u8>) -> Result<(), Memory>
    ensures ok { OnOk result (out.new.items ≡ out.old.items ++ doubled byte) }
    ensures front { KeepsFront out.old.items out.new.items }
{
    if byte == QUOTE {
        out.extend_from_slice(b"''")?;
    } else {
        out.push(byte)?;
    }
    Ok(())
}

/// Appends the bytes of a text with each quote doubled.
fn put_doubled(text: &[u8], out: &mut Vec<u8>) -> Result<(), Memory>
    ensures ok { OnOk result (out.new.items ≡ out.old.items ++ flat_map doubled text.now) }
    ensures front { KeepsFront out.old.items out.new.items }
{
    for byte in text {
        put_byte(*byte, out)?;
    }
    Ok(())
}

/// Appends a text in quotes.
fn put_quoted(text: &[u8], out: &mut Vec<u8>) -> Result<(), Memory>
    ensures ok { OnOk result (out.new.items ≡ out.old.items ++ quoted text.now) }
    ensures front { KeepsFront out.old.items out.new.items }
{
    out.push(QUOTE)?;
    put_doubled(text, out)?;
    out.push(QUOTE)?;
    Ok(())
}

/// Appends the printed value. Where memory runs out, a part of it may stand in `out`.
fn put_value(v: &Value, out: &mut Vec<u8>) -> Result<(), Memory>
    ensures ok { OnOk result (out.new.items ≡ out.old.items ++ printed v.now) }
    ensures front { KeepsFront out.old.items out.new.items }
{
    match v {
        Value::Null => {
            out.extend_from_slice(b"NULL")?;
            Ok(())
        }
        Value::Int(number) => {
            let digits = number.to_string(*out.allocator())?;
            out.extend_from_slice(digits.as_bytes())?;
            Ok(())
        }
        Value::Text(text) => put_quoted(text.as_slice(), out),
    }
}

/// Appends the value as it prints: a number in decimal digits, `NULL`, or a text in single quotes
/// with each quote in it doubled.
///
/// # Errors
///
/// `Memory` only. Then `out` is as before.
pub fn print(v: &Value, out: &mut Vec<u8>) -> Result<(), Memory>
    ensures ok { OnOk result (out.new.items ≡ out.old.items ++ printed v.now) }
    ensures err { OnErr result (out.new.items ≡ out.old.items) }
{
    let before = out.len();
    let result = put_value(v, out);
    if result.is_err() {
        out.truncate(before);
    }
    result
}
