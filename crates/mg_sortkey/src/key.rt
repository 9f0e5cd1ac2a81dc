//! Writing the key bytes of a value.

ghost use Rattle.std.specs.Prelude.{◌≡◌, ◌++◌, OnErr, OnOk, length};
ghost use Rattle.std.specs.List.{flat_map};
ghost use Rattle.mg_value.specs.declared.value.Value.TheVariants.{Int, Text};
ghost use Rattle.mg_sortkey.specs.KeyBytes.{escaped, key_bytes as key_bytes_of, most_key_bytes};

use crate::tags::{ESCAPE, INT_TAG, NULL_TAG, TEXT_TAG};
use mg_base::Memory;
use mg_value::{Kind, Value};

/// Appends a byte of a text, a zero byte followed by ff.
fn put_byte(byte: u8, out: &mut Vec<u8>) -> Result<(), Memory>
    ensures { OnOk result (out.new.items ≡ out.old.items ++ escaped byte) }
{
    out.push(byte)?;
    if byte == 0 {
        out.push(ESCAPE)?;
    }
    Ok(())
}

/// Appends the bytes of a text, each zero byte followed by ff.
fn put_escaped(text: &[u8], out: &mut Vec<u8>) -> Result<(), Memory>
    ensures { OnOk result (out.new.items ≡ out.old.items ++ flat_map escaped text.now) }
{
    for byte in text {
        put_byte(*byte, out)?;
    }
    Ok(())
}

/// Appends the key bytes of a number.
#[tactic(auto, unfolding(crate::specs::KeyBytes::key_bytes))]
fn put_number(number: i64, out: &mut Vec<u8>) -> Result<(), Memory>
    ensures { OnOk result (out.new.items ≡ out.old.items ++ key_bytes_of (Int number)) }
{
    // With the sign bit turned over, negative numbers come before the others.
    let turned = number.cast_unsigned().wrapping_add(1 << 63);
    out.push(INT_TAG)?;
    out.extend_from_slice(&turned.to_be_bytes())?;
    Ok(())
}

/// Appends the key bytes of a text.
#[tactic(auto, unfolding(crate::specs::KeyBytes::key_bytes))]
fn put_text(text: &[u8], out: &mut Vec<u8>) -> Result<(), Memory>
    ensures { OnOk result (out.new.items ≡ out.old.items ++ key_bytes_of (Text text.now)) }
{
    out.push(TEXT_TAG)?;
    put_escaped(text, out)?;
    out.push(0)?;
    out.push(0)?;
    Ok(())
}

/// Appends the key bytes of a value. Where memory runs out, some of them stand in `out`.
#[tactic(auto, unfolding(crate::specs::KeyBytes::key_bytes))]
fn put_key(v: &Value, out: &mut Vec<u8>) -> Result<(), Memory>
    ensures { OnOk result (out.new.items ≡ out.old.items ++ key_bytes_of v.now) }
{
    match v {
        Value::Null => out.push(NULL_TAG)?,
        Value::Int(number) => put_number(*number, out)?,
        Value::Text(text) => put_text(text.as_slice(), out)?,
    }
    Ok(())
}

/// Appends the key bytes of a value.
///
/// # Errors
///
/// `Memory` only. Then `out` is as before.
pub fn key_bytes(v: &Value, out: &mut Vec<u8>) -> Result<(), Memory>
    ensures ok { OnOk result (out.new.items ≡ out.old.items ++ key_bytes_of v.now) }
    ensures err { OnErr result (out.new.items ≡ out.old.items) }
{
    // The key is made apart, so that nothing stands in `out` where memory runs out.
    let mut key = Vec::new(*out.allocator());
    put_key(v, &mut key)?;
    out.extend_from_slice(&key)?;
    Ok(())
}

/// How many key bytes a value of a kind has at most.
pub fn key_most(k: Kind) -> u32
    ensures { result ≡ most_key_bytes k }
{
    match k {
        Kind::Int => 9,
        Kind::Text(most) => 2 * u32::from(most) + 3,
    }
}
