//! The plain machine as a keeper of records.

ghost use Rattle.std.specs.Prelude.{◌<◌};

use super::machine::{let_machine_go, name, new_machine, row};
use mg_base::TxNo;
use mg_model::{Mode, Refusal, Rows};
use mg_plain::Plain;
use mg_records::{Records, Write};
use mg_value::{Key, Name, Row, Value, row_fits};
use std::alloc::Global;
use std::process::Abort;
use std::test::Fail;

/// A transaction of a session.
pub(super) fn begin(plain: &mut Plain, session: u8, snapshot: bool) -> Result<TxNo, Refusal>
    requires { session < 32 }
{
    let mode = Mode {
        read_only: false,
        wait: false,
        snapshot,
    };
    Records::begin(plain, session, mode)
}

/// Writes a row to a table, if the row fits it.
fn insert(plain: &mut Plain, t: TxNo, table: &Name, row: Row) -> Result<(), Refusal> {
    let table = plain.table(t, table)?;
    if !row_fits(&table.shape, &row) {
        return Err(Refusal::NoRow);
    }
    plain.write_step(t, &table, &Write::Insert(row))
}

/// The number that is a row's key and stands in its first column.
pub(super) fn number_in(row: &Option<(Key, Row)>) -> Option<i64> {
    match row {
        Some((key, row)) => match (key.value(), row.as_slice().first()) {
            (Value::Int(key), Some(Value::Int(number))) if key == number => Some(*number),
            _ => None,
        },
        None => None,
    }
}

/// The keys that a walk over a table comes to, at most ten.
fn keys(alloc: Global, plain: &mut Plain, t: TxNo, name: &Name) -> Result<Vec<i64>, Refusal> {
    let mut keys = Vec::new(alloc);
    let mut place = None;
    for _ in 0..10 {
        let table = plain.table(t, name)?;
        let Some(found) = plain.scan_step(t, &table, place.as_ref())? else {
            return Ok(keys);
        };
        if let Some(number) = number_in(&found.row)
            && keys.push(number).is_err()
        {
            return Err(Refusal::Memory);
        }
        place = Some(found.place);
    }
    Ok(keys)
}

/// What a call gave, which was not refused.
pub(super) fn done<T>(rt: &impl Abort, given: Result<T, Refusal>) -> T {
    match given {
        Ok(value) => value,
        Err(refusal) => panic!(rt; "{refusal}"),
    }
}

// The calls of the machine as the test makes them, without what they promise: a promise would be
// carried along in the proof of all that follows.

/// Wants the table KV to get the row k, v.
pub(super) fn put(
    rt: &impl Abort,
    alloc: Global,
    plain: &mut Plain,
    t: TxNo,
    k: i64,
    v: i64,
) -> Result<(), Fail> {
    done(rt, insert(plain, t, &name(rt, b"KV"), row(alloc, k, v)?));
    Ok(())
}

/// Wants a walk over KV to come to these keys.
fn sees(rt: &impl Abort, alloc: Global, plain: &mut Plain, t: TxNo, wanted: &[i64]) {
    let seen = done(rt, keys(alloc, plain, t, &name(rt, b"KV")));
    assert_eq!(rt; seen.as_slice(), wanted);
}

/// Begins a statement.
fn look(plain: &mut Plain, t: TxNo) -> Result<(), Refusal> {
    Records::look(plain, t)
}

fn mark(plain: &mut Plain, t: TxNo) -> Result<(), Refusal> {
    plain.mark(t)
}

fn undo_mark(plain: &mut Plain, t: TxNo) -> Result<(), Refusal> {
    plain.undo_mark(t)
}

/// Sets the savepoint S.
fn save(rt: &impl Abort, plain: &mut Plain, t: TxNo) -> Result<(), Refusal> {
    plain.savepoint(t, &name(rt, b"S"))
}

/// Goes back to the savepoint S, and tells whether there is one.
fn back(rt: &impl Abort, plain: &mut Plain, t: TxNo) -> Result<bool, Refusal> {
    plain.back_to(t, &name(rt, b"S"))
}

/// Commits, and tells whether all was written before.
fn commit(plain: &mut Plain, t: TxNo) -> Result<bool, Refusal> {
    plain.commit_ask(t)?;
    let written = plain.commit_step(t)?;
    plain.commit_end(t)?;
    Ok(written)
}

/// Tells that a statement found no rows in KV.
fn found_none(rt: &impl Abort, alloc: Global, plain: &mut Plain, t: TxNo) -> Result<(), Refusal> {
    plain.found(t, &name(rt, b"KV"), &None, &Rows::new(Vec::new(alloc)))
}

fn rollback(plain: &mut Plain, t: TxNo) -> Result<(), Refusal> {
    plain.rollback(t)
}

/// The refusal of a table.
fn refusal_of(rt: &impl Abort, plain: &mut Plain, t: TxNo, table: &[u8]) -> Option<Refusal> {
    plain.table(t, &name(rt, table)).err()
}

/// What is taken back is not seen, and the savepoint stays.
fn takes_back(rt: &impl Abort, alloc: Global, plain: &mut Plain, a: TxNo) -> Result<(), Fail> {
    done(rt, mark(plain, a));
    put(rt, alloc, plain, a, 3, 30)?;
    done(rt, undo_mark(plain, a));
    sees(rt, alloc, plain, a, &[1, 2]);
    assert!(rt; !done(rt, back(rt, plain, a)));
    done(rt, save(rt, plain, a));
    put(rt, alloc, plain, a, 4, 40)?;
    assert!(rt; done(rt, back(rt, plain, a)));
    assert!(rt; done(rt, back(rt, plain, a)));
    sees(rt, alloc, plain, a, &[1, 2]);
    Ok(())
}

/// Another transaction, which sees the rows of the first once they are committed and it looks anew.
fn shows_another(rt: &impl Abort, alloc: Global, plain: &mut Plain, a: TxNo) -> TxNo {
    let b = done(rt, begin(plain, 1, false));
    sees(rt, alloc, plain, b, &[]);
    assert!(rt; done(rt, commit(plain, a)));
    sees(rt, alloc, plain, b, &[]);
    done(rt, look(plain, b));
    sees(rt, alloc, plain, b, &[1, 2]);
    b
}

/// A key that is there, a table that isn't, and a transaction that has ended are refused.
fn refuses(rt: &impl Abort, alloc: Global, plain: &mut Plain, b: TxNo) -> Result<(), Fail> {
    let twice = insert(plain, b, &name(rt, b"KV"), row(alloc, 1, 0)?);
    assert!(rt; matches!(twice, Err(Refusal::DuplicateKey)));
    assert!(rt; matches!(refusal_of(rt, plain, b, b"S"), Some(Refusal::NoTable)));
    done(rt, found_none(rt, alloc, plain, b));
    done(rt, rollback(plain, b));
    let ended = refusal_of(rt, plain, b, b"KV");
    assert!(rt; matches!(ended, Some(Refusal::NotActive { .. })));
    Ok(())
}

/// Walks over what one transaction writes, and another reads.
fn walks(rt: &impl Abort, alloc: Global, plain: &mut Plain) -> Result<(), Fail> {
    let a = done(rt, begin(plain, 0, true));
    put(rt, alloc, plain, a, 2, 20)?;
    put(rt, alloc, plain, a, 1, 10)?;
    sees(rt, alloc, plain, a, &[1, 2]);
    takes_back(rt, alloc, plain, a)?;
    let b = shows_another(rt, alloc, plain, a);
    refuses(rt, alloc, plain, b)
}

#[test]
fn a_walk_comes_to_the_rows_that_its_transaction_sees(rt: HostRuntime) -> Result<(), Fail> {
    let mut plain = new_machine(&rt, rt.alloc(), 1000)?;
    let walked = walks(&rt, rt.alloc(), &mut plain);
    let_machine_go(plain);
    walked
}
