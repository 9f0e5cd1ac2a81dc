//! The keys of single values, and the longest keys.

use super::appended::{begun, is_appended};
use super::cases::{Case, hold_each};
use super::values::{Said, value_of};
use mg_sortkey::{key_bytes, key_most};
use mg_value::{Kind, Value};
use std::alloc::Global;
use std::test::Fail;

/// Tells whether a value has a key of these bytes, behind a byte that is there.
fn has_key(alloc: Global, value: &Value, key: &[u8]) -> Result<bool, Fail> {
    let mut out = begun(alloc)?;
    key_bytes(value, &mut out)?;
    Ok(is_appended(&out, key))
}

/// A value and the bytes of its key.
struct Keyed(Said, &'static [u8]);

impl Case for Keyed {
    fn holds(&self, alloc: Global) -> Result<bool, Fail> {
        let value = value_of(alloc, self.0)?;
        has_key(alloc, &value, self.1)
    }
}

/// A key comes behind what stands there.
const KEYED: &[Keyed] = &[
    // A number is highest byte first, with its sign bit turned over.
    Keyed(Said::Int(0), &[1, 0x80, 0, 0, 0, 0, 0, 0, 0]),
    Keyed(Said::Int(1), &[1, 0x80, 0, 0, 0, 0, 0, 0, 1]),
    Keyed(Said::Int(-1), &[1, 0x7f, 255, 255, 255, 255, 255, 255, 255]),
    Keyed(
        Said::Int(i64::MAX),
        &[1, 255, 255, 255, 255, 255, 255, 255, 255],
    ),
    Keyed(Said::Int(i64::MIN), &[1, 0, 0, 0, 0, 0, 0, 0, 0]),
    // A text has its zero bytes marked, and two zero bytes behind it.
    Keyed(Said::Text(b"ab"), &[2, b'a', b'b', 0, 0]),
    Keyed(Said::Text(b""), &[2, 0, 0]),
    Keyed(
        Said::Text(b"a\0b\0"),
        &[2, b'a', 0, 255, b'b', 0, 255, 0, 0],
    ),
    // NULL is one byte.
    Keyed(Said::Null, &[0]),
];

/// A kind of column, and how long its keys are at most.
struct Most(Kind, u32);

impl Case for Most {
    fn holds(&self, _alloc: Global) -> Result<bool, Fail> {
        Ok(key_most(self.0) == self.1)
    }
}

/// The longest keys.
const MOST: &[Most] = &[
    Most(Kind::Int, 9),
    Most(Kind::Text(40), 83),
    Most(Kind::Text(65_535), 131_073),
];

#[test]
fn a_key_comes_behind_what_stands_there_and_is_not_longer_than_its_column_allows(
    rt: HostRuntime,
) -> Result<(), Fail> {
    hold_each(&rt, rt.alloc(), KEYED)?;
    hold_each(&rt, rt.alloc(), MOST)
}
