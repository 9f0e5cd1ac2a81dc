//! Values: how they print and are ordered, and which names, keys and rows there are.

use super::appended::{begun, is_appended};
use super::cases::{Case, hold_each};
use super::values::{Said, Told, row_of, shape_of, value_of, values_of};
use mg_value::{
    Key, Kind, MOST_COLUMNS, Name, Row, Shape, Txt, Value, ValueFault, compare, order, print,
    row_fits, row_len,
};
use std::alloc::Global;
use std::cmp::Ordering;
use std::test::Fail;

/// A value, and what it prints.
struct Written(Said, &'static [u8]);

/// Tells whether a value prints so, behind a byte that is there before.
fn prints(alloc: Global, value: &Value, printed: &[u8]) -> Result<bool, Fail> {
    let mut out = begun(alloc)?;
    print(value, &mut out)?;
    Ok(is_appended(&out, printed))
}

impl Case for Written {
    fn holds(&self, alloc: Global) -> Result<bool, Fail> {
        let value = value_of(alloc, self.0)?;
        prints(alloc, &value, self.1)
    }
}

/// Values print as digits, as NULL or in quotes.
const WRITTEN: &[Written] = &[
    Written(Said::Null, b"NULL"),
    Written(Said::Int(0), b"0"),
    Written(Said::Int(-10), b"-10"),
    Written(Said::Int(i64::MIN), b"-9223372036854775808"),
    Written(Said::Int(i64::MAX), b"9223372036854775807"),
    Written(Said::Text(b""), b"''"),
    Written(Said::Text(b"it's"), b"'it''s'"),
    Written(Said::Text(b"''"), b"''''''"),
];

/// How values at two places compare: not at all where one is the first, which is NULL.
fn comparison_of(i: usize, j: usize) -> Option<Ordering> {
    if i == 0 || j == 0 {
        return None;
    }
    Some(i.cmp(&j))
}

/// Tells whether the values at two places are ordered and compare as their places do.
fn is_pair(i: usize, a: &Value, j: usize, b: &Value) -> bool {
    order(a, b) == i.cmp(&j) && compare(a, b) == comparison_of(i, j)
}

/// Tells whether the value at a place is ordered before each later one, and behind each earlier one.
fn is_ordered(values: &[Value], i: usize, a: &Value) -> bool {
    for (j, b) in values.iter().enumerate() {
        if !is_pair(i, a, j, b) {
            return false;
        }
    }
    true
}

/// Tells whether each value is ordered so.
fn are_ordered(values: &[Value]) -> bool {
    for (i, a) in values.iter().enumerate() {
        if !is_ordered(values, i, a) {
            return false;
        }
    }
    true
}

/// Values in their order.
struct Ordered(&'static [Said]);

impl Case for Ordered {
    fn holds(&self, alloc: Global) -> Result<bool, Fail> {
        Ok(are_ordered(&values_of(alloc, self.0)?))
    }
}

/// NULL is least, numbers order as numbers, and texts by their bytes.
const ORDERED: &[Ordered] = &[Ordered(&[
    Said::Null,
    Said::Int(i64::MIN),
    Said::Int(-1),
    Said::Int(2),
    Said::Int(10),
    Said::Text(b""),
    Said::Text(b"B"),
    Said::Text(b"a"),
    Said::Text(b"a\0"),
    Said::Text(b"ab"),
])];

/// A text, how many bytes its column takes, and the fault that this is.
struct Taken(&'static [u8], u16, Option<ValueFault>);

/// A text of a column that takes so many bytes.
fn text_of(alloc: Global, bytes: &[u8], most: u16) -> Result<Txt, ValueFault> {
    if bytes.len() >= 1000 {
        return Err(ValueFault::Memory);
    }
    Txt::new(alloc, bytes, most)
}

/// Tells whether a text and its copy have these bytes.
fn is_text(alloc: Global, text: &Txt, bytes: &[u8]) -> Result<bool, Fail> {
    let copy = text.copy(alloc)?;
    Ok(text.as_slice() == bytes && copy.as_slice() == bytes)
}

impl Case for Taken {
    fn holds(&self, alloc: Global) -> Result<bool, Fail> {
        match text_of(alloc, self.0, self.1) {
            Ok(text) => Ok(self.2.is_none() && is_text(alloc, &text, self.0)?),
            Err(fault) => Ok(self.2 == Some(fault)),
        }
    }
}

/// A text has at most as many bytes as its column takes.
const TAKEN: &[Taken] = &[
    Taken(b"abc", 3, None),
    Taken(b"abcd", 3, Some(ValueFault::TextTooLong { len: 4 })),
];

/// Bytes that are a name, which gives them back.
struct Named(&'static [u8]);

impl Case for Named {
    fn holds(&self, _alloc: Global) -> Result<bool, Fail> {
        match Name::new(self.0) {
            Some(name) => Ok(name.as_slice() == self.0),
            None => Ok(false),
        }
    }
}

/// Names are capitals, digits and signs.
const NAMES: &[Named] = &[
    Named(b"A"),
    Named(b"KV"),
    Named(b"MG$CATALOG"),
    Named(b"A_1"),
    Named(b"SETS"),
    Named(b"ABCDEFGHIJKLMNOPQRSTUVWXYZ01234"),
];

/// Bytes that are no name.
struct Unnamed(&'static [u8]);

impl Case for Unnamed {
    fn holds(&self, _alloc: Global) -> Result<bool, Fail> {
        Ok(Name::new(self.0).is_none())
    }
}

/// No name is a word of the grammar, or has another byte.
const NO_NAMES: &[Unnamed] = &[
    Unnamed(b""),
    Unnamed(b"a"),
    Unnamed(b"1A"),
    Unnamed(b"_A"),
    Unnamed(b"A-"),
    Unnamed(b"A B"),
    Unnamed(b"SET"),
    Unnamed(b"INDEX"),
    Unnamed(b"ON"),
    Unnamed(b"IS"),
    Unnamed(b"ABCDEFGHIJKLMNOPQRSTUVWXYZ012345"),
];

/// Tells whether a key is 5.
fn is_five(key: &Key) -> bool {
    order(key.value(), &Value::Int(5)) == Ordering::Equal
}

/// Tells whether a key and its copy are 5.
fn are_five(alloc: Global, key: &Key) -> Result<bool, Fail> {
    let copy = key.copy(alloc)?;
    Ok(is_five(key) && is_five(&copy))
}

/// The key 5.
fn five() -> Result<Key, Fail> {
    Ok(Key::new(Value::Int(5)).ok_or("5 is a key")?)
}

/// Tells whether a key is any value but NULL.
fn are_keys(alloc: Global) -> Result<bool, Fail> {
    let key = five()?;
    Ok(are_five(alloc, &key)? && Key::new(Value::Null).is_none())
}

#[test]
fn values_texts_names_and_keys(rt: HostRuntime) -> Result<(), Fail> {
    hold_each(&rt, rt.alloc(), WRITTEN)?;
    hold_each(&rt, rt.alloc(), ORDERED)?;
    hold_each(&rt, rt.alloc(), TAKEN)?;
    hold_each(&rt, rt.alloc(), NAMES)?;
    hold_each(&rt, rt.alloc(), NO_NAMES)?;
    assert!(rt; are_keys(rt.alloc())?);
    Ok(())
}

/// The columns of a table of two numbers, and those with a note that came later.
const KV: &[Told] = &[(b"K", Kind::Int, true, 1), (b"V", Kind::Int, false, 1)];

const NOTED: &[Told] = &[
    (b"K", Kind::Int, true, 1),
    (b"V", Kind::Int, false, 1),
    (b"V", Kind::Text(5), false, 2),
];

/// Tells whether a row of a shape has so many bytes.
fn has_len(shape: &Shape, len: u32) -> bool {
    shape.columns.as_slice().len() <= MOST_COLUMNS && row_len(shape) == len
}

/// Tells whether the copy of a shape has rows of so many bytes, and its key.
fn is_copied(alloc: Global, shape: &Shape, len: u32) -> Result<bool, Fail> {
    let copy = shape.copy(alloc)?;
    Ok(has_len(&copy, len) && copy.key == shape.key)
}

/// The columns of a table, and how many bytes each of its rows has.
struct Shaped(&'static [Told], u32);

impl Case for Shaped {
    fn holds(&self, alloc: Global) -> Result<bool, Fail> {
        let shape = shape_of(alloc, self.0)?;
        Ok(has_len(&shape, self.1) && is_copied(alloc, &shape, self.1)?)
    }
}

/// A row of KV has 17 bytes, and a copy of a shape has its columns and its key.
const SHAPED: &[Shaped] = &[Shaped(KV, 17), Shaped(NOTED, 24)];

/// How many values the copy of a row has.
fn len_of_copy(alloc: Global, row: &Row) -> Result<usize, Fail> {
    Ok(row.copy(alloc)?.as_slice().len())
}

/// Tells whether a row gives back two values, the second of them NULL.
fn gives_back(row: Row) -> bool {
    let values = row.into_vec();
    values.len() == 2 && values[1].is_null()
}

/// Tells whether a row lends, copies and gives back its values.
fn is_given_back(alloc: Global) -> Result<bool, Fail> {
    let row = row_of(alloc, &[Said::Int(1), Said::Null])?;
    let len = len_of_copy(alloc, &row)?;
    Ok(gives_back(row) && len == 2)
}

/// A number that is not NULL, and a text of at most two bytes.
const TWO: &[Told] = &[(b"C", Kind::Int, true, 1), (b"C", Kind::Text(2), false, 1)];

/// A row, and whether it fits those columns.
struct Fitting(&'static [Said], bool);

impl Case for Fitting {
    fn holds(&self, alloc: Global) -> Result<bool, Fail> {
        let shape = shape_of(alloc, TWO)?;
        let row = row_of(alloc, self.0)?;
        Ok(row_fits(&shape, &row) == self.1)
    }
}

/// A row fits where each value may stand in its column.
const ROWS: &[Fitting] = &[
    Fitting(&[Said::Int(1), Said::Null], true),
    Fitting(&[Said::Int(1), Said::Text(b"ab")], true),
    Fitting(&[Said::Null, Said::Null], false),
    Fitting(&[Said::Int(1), Said::Text(b"abc")], false),
    Fitting(&[Said::Int(1), Said::Int(1)], false),
    Fitting(&[Said::Text(b"a"), Said::Null], false),
    Fitting(&[Said::Int(1)], false),
    Fitting(&[Said::Int(1), Said::Null, Said::Null], false),
];

#[test]
fn rows_have_their_size_and_their_values_and_fit_their_columns(
    rt: HostRuntime,
) -> Result<(), Fail> {
    hold_each(&rt, rt.alloc(), SHAPED)?;
    hold_each(&rt, rt.alloc(), ROWS)?;
    assert!(rt; is_given_back(rt.alloc())?);
    Ok(())
}
