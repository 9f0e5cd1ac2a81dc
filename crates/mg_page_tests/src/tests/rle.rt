//! Texts that are packed and unpacked, byte by byte.

use super::appended::{begun, is_appended};
use super::cases::{Case, hold_each};
use mg_rle::{RunFault, pack, unpack};
use std::alloc::Global;
use std::test::Fail;

/// A text as the tests write it.
#[derive(Clone, Copy)]
enum Text {
    Bytes(&'static [u8]),
    /// So many bytes of a value.
    Equal(u8, usize),
    /// So many bytes of which no two neighbours are equal, each below 2.
    Alternating(usize),
    /// A full literal of 127 such bytes, and what is behind it.
    Full(&'static [u8]),
}

/// `len` bytes of which no two neighbours are equal, each below 2.
fn alternating(alloc: Global, len: usize) -> Result<Vec<u8>, Fail> {
    let mut bytes = Vec::new(alloc);
    for at in 0..len {
        bytes.push((at % 2) as u8)?;
    }
    Ok(bytes)
}

/// A full literal of 127 such bytes, and what is behind it.
fn full_literal(alloc: Global, rest: &[u8]) -> Result<Vec<u8>, Fail> {
    let mut packed = [127].to_vec(alloc)?;
    packed.extend_from_slice(&alternating(alloc, 127)?)?;
    packed.extend_from_slice(rest)?;
    Ok(packed)
}

/// The bytes of a text.
fn bytes_of(alloc: Global, text: Text) -> Result<Vec<u8>, Fail> {
    match text {
        Text::Bytes(bytes) => Ok(bytes.to_vec(alloc)?),
        Text::Equal(byte, len) => Ok(vec![in alloc; byte; len]?),
        Text::Alternating(len) => alternating(alloc, len),
        Text::Full(rest) => full_literal(alloc, rest),
    }
}

/// Unpacks a text behind bytes that are there.
fn unpack_short(packed: &[u8], out: &mut Vec<u8>) -> Result<(), RunFault> {
    if packed.len() >= 2_147_483_648 {
        return Err(RunFault::Memory);
    }
    unpack(packed, out)
}

/// Tells whether a text is packed to another, behind a byte that is there.
fn is_packed(alloc: Global, plain: &[u8], packed: &[u8]) -> Result<bool, Fail> {
    let mut out = begun(alloc)?;
    let done = pack(plain, &mut out).is_ok();
    Ok(done && is_appended(&out, packed))
}

/// Tells whether a text is unpacked to another, behind a byte that is there.
fn is_unpacked(alloc: Global, packed: &[u8], plain: &[u8]) -> Result<bool, Fail> {
    let mut out = begun(alloc)?;
    let done = unpack_short(packed, &mut out).is_ok();
    Ok(done && is_appended(&out, plain))
}

/// A text, and what it is packed to, which is unpacked to it again.
struct Packed(Text, Text);

impl Case for Packed {
    fn holds(&self, alloc: Global) -> Result<bool, Fail> {
        let plain = bytes_of(alloc, self.0)?;
        let packed = bytes_of(alloc, self.1)?;
        Ok(is_packed(alloc, &plain, &packed)? && is_unpacked(alloc, &packed, &plain)?)
    }
}

/// Texts pack and unpack.
const PACKED: &[Packed] = &[
    // The vectors of the format:
    // The row K = 1, V = 10 of a table of two numbers.
    Packed(
        Text::Bytes(&[0, 1, 0, 0, 0, 0, 0, 0, 0, 10, 0, 0, 0, 0, 0, 0, 0]),
        Text::Bytes(&[2, 0, 1, 0xf9, 0, 1, 10, 0xf9, 0]),
    ),
    Packed(Text::Bytes(&[]), Text::Bytes(&[])),
    Packed(
        Text::Equal(0x61, 130),
        Text::Bytes(&[0x80, 0x61, 2, 0x61, 0x61]),
    ),

    // Bytes 5, in repeats and literals of these sizes:
    Packed(Text::Equal(5, 1), Text::Bytes(&[1, 5])),
    Packed(Text::Equal(5, 2), Text::Bytes(&[2, 5, 5])),
    Packed(Text::Equal(5, 3), Text::Bytes(&[253, 5])),
    Packed(Text::Equal(5, 127), Text::Bytes(&[129, 5])),
    Packed(Text::Equal(5, 128), Text::Bytes(&[128, 5])),
    Packed(Text::Equal(5, 129), Text::Bytes(&[128, 5, 1, 5])),
    Packed(Text::Equal(5, 131), Text::Bytes(&[128, 5, 253, 5])),
    Packed(Text::Equal(5, 256), Text::Bytes(&[128, 5, 128, 5])),

    // A literal ends at 127 bytes, or before three equal ones:
    Packed(Text::Alternating(127), Text::Full(&[])),
    Packed(Text::Alternating(128), Text::Full(&[1, 1])),
    // Two equal bytes stay in the literal, three leave it.
    Packed(
        Text::Bytes(&[1, 2, 2, 3, 4, 4, 4]),
        Text::Bytes(&[4, 1, 2, 2, 3, 253, 4]),
    ),
    Packed(Text::Bytes(&[1, 2, 2, 2, 2]), Text::Bytes(&[1, 1, 252, 2])),
];

/// Tells whether a text is refused at a place, with the output as before.
fn is_refused(alloc: Global, packed: &[u8], at: u32) -> Result<bool, Fail> {
    let mut out = begun(alloc)?;
    let fault = unpack_short(packed, &mut out).err();
    Ok(fault == Some(RunFault::BadRun { at }) && is_appended(&out, &[]))
}

/// A text that is refused, and where.
struct Refused(Text, u32);

impl Case for Refused {
    fn holds(&self, alloc: Global) -> Result<bool, Fail> {
        let packed = bytes_of(alloc, self.0)?;
        is_refused(alloc, &packed, self.1)
    }
}

/// Other texts are refused at the first run that breaks the rule.
const REFUSED: &[Refused] = &[
    // The vectors of the format: a repeat of two, and a literal behind one that could go on.
    Refused(Text::Bytes(&[0xfe, 0x61]), 0),
    Refused(Text::Bytes(&[2, 0x61, 0x62, 1, 0x63]), 3),
    // Control bytes 0 and 255, and runs that are cut short.
    Refused(Text::Bytes(&[1, 5, 0]), 2),
    Refused(Text::Bytes(&[1, 5, 255, 5]), 2),
    Refused(Text::Bytes(&[253, 1, 2, 5]), 2),
    Refused(Text::Bytes(&[1, 1, 253]), 2),
    // Three equal bytes in a literal, and across its end.
    Refused(Text::Bytes(&[253, 1, 3, 5, 5, 5]), 2),
    Refused(Text::Bytes(&[1, 5, 253, 5]), 2),
    // A repeat that could go on before its byte.
    Refused(Text::Bytes(&[253, 5, 1, 5]), 2),
    Refused(Text::Bytes(&[253, 5, 253, 5]), 2),
    // A full literal ends in 0; the next one goes on with two more, or with one before a repeat.
    Refused(Text::Full(&[3, 0, 0, 1]), 128),
    Refused(Text::Full(&[1, 0, 253, 0]), 130),
];

#[test]
fn texts_pack_and_unpack_and_others_are_refused_at_the_first_run_that_breaks_the_rule(
    rt: HostRuntime,
) -> Result<(), Fail> {
    hold_each(&rt, rt.alloc(), PACKED)?;
    hold_each(&rt, rt.alloc(), REFUSED)
}
