//! Walks of the plain machine by the primary index of a table.

use super::machine::{let_machine_go, name, new_machine};
use super::records::{begin, done, number_in, put};
use mg_base::TxNo;
use mg_indexed::Indexed;
use mg_model::Refusal;
use mg_paths::Range;
use mg_plain::Plain;
use mg_records::Records;
use mg_value::{Key, Name, Value};
use std::alloc::Global;
use std::process::Abort;
use std::test::Fail;

/// The key of a number, none for None.
fn end(number: Option<i64>) -> Option<Key> {
    match number {
        Some(number) => Key::new(Value::Int(number)),
        None => None,
    }
}

fn range(low: Option<i64>, high: Option<i64>) -> Range {
    Range {
        low: end(low),
        high: end(high),
    }
}

/// The next step of a walk: the place that it comes to, and the number that is the row's key.
fn step(
    plain: &mut Plain,
    t: TxNo,
    name: &Name,
    range: &Range,
    after: Option<usize>,
) -> Result<Option<(usize, Option<i64>)>, Refusal> {
    let table = plain.table(t, name)?;
    if table.indexes.as_slice().is_empty() {
        return Err(Refusal::NoTable);
    }
    match plain.index_step(t, &table, 0, range, after.as_ref())? {
        Some(found) => Ok(Some((found.place, number_in(&found.row)))),
        None => Ok(None),
    }
}

/// The keys that a walk by the primary index comes to in a range, at most ten.
fn keys_between(
    alloc: Global,
    plain: &mut Plain,
    t: TxNo,
    name: &Name,
    range: &Range,
) -> Result<Vec<i64>, Refusal> {
    let mut keys = Vec::new(alloc);
    let mut after = None;
    for _ in 0..10 {
        let Some((place, key)) = step(plain, t, name, range, after)? else {
            return Ok(keys);
        };
        if let Some(number) = key
            && keys.push(number).is_err()
        {
            return Err(Refusal::Memory);
        }
        after = Some(place);
    }
    Ok(keys)
}

/// Wants a walk by the primary index of KV to come to these keys.
fn finds(
    rt: &impl Abort,
    alloc: Global,
    plain: &mut Plain,
    t: TxNo,
    range: &Range,
    wanted: &[i64],
) {
    let found = done(rt, keys_between(alloc, plain, t, &name(rt, b"KV"), range));
    assert_eq!(rt; found.as_slice(), wanted);
}

/// Both ends belong to a range, and an end that is left out is open.
fn finds_ranges(rt: &impl Abort, alloc: Global, plain: &mut Plain, t: TxNo) {
    finds(rt, alloc, plain, t, &range(Some(2), Some(4)), &[2, 3, 4]);
    finds(rt, alloc, plain, t, &range(None, Some(2)), &[1, 2]);
    finds(rt, alloc, plain, t, &range(Some(4), None), &[4, 5]);
    finds(rt, alloc, plain, t, &range(None, None), &[1, 2, 3, 4, 5]);
    finds(rt, alloc, plain, t, &range(Some(6), None), &[]);
    finds(rt, alloc, plain, t, &range(Some(4), Some(2)), &[]);
}

/// Another transaction finds none of the rows, which are not committed.
fn finds_own_rows(rt: &impl Abort, alloc: Global, plain: &mut Plain) -> Result<(), Fail> {
    let a = done(rt, begin(plain, 0, true));
    for number in 1..6 {
        put(rt, alloc, plain, a, number, 10)?;
    }
    finds_ranges(rt, alloc, plain, a);
    let b = done(rt, begin(plain, 1, true));
    finds(rt, alloc, plain, b, &range(None, None), &[]);
    Ok(())
}

#[test]
fn a_walk_by_an_index_comes_to_the_rows_in_its_range(rt: HostRuntime) -> Result<(), Fail> {
    let mut plain = new_machine(&rt, rt.alloc(), 1000)?;
    let walked = finds_own_rows(&rt, rt.alloc(), &mut plain);
    let_machine_go(plain);
    walked
}
