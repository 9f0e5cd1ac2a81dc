//! An opening, and its text.

use super::events::{key, name, row};
use mg_base::TxNo;
use mg_model::{Changes, LimboChange, Opening, Placed, PlacedRow, States};
use mg_trace::Trace;
use mg_value::{Row, Value};
use std::alloc::Global;
use std::process::Abort;
use std::test::Fail;

/// A row of two numbers.
fn numbers(alloc: Global, first: i64, second: i64) -> Result<Row, Fail> {
    row(alloc, Value::Int(first), Value::Int(second))
}

/// The rows of the opening: one of the table KV.
fn rows(rt: &impl Abort, alloc: Global) -> Result<Placed, Fail> {
    let table = name(rt, b"KV");
    let row = numbers(alloc, 1, 10)?;
    let mut rows = Vec::new(alloc);
    rows.push(PlacedRow { table, row })?;
    Ok(Placed::new(rows))
}

/// A change of transaction 3: the key comes to have a row, or is deleted.
fn change(rt: &impl Abort, number: i64, row: Option<Row>) -> LimboChange {
    LimboChange {
        by: TxNo(3),
        table: name(rt, b"KV"),
        key: key(rt, Value::Int(number)),
        row,
    }
}

/// Its changes: the row of key 2 is deleted, that of key 4 comes.
fn limbo(rt: &impl Abort, alloc: Global) -> Result<Changes, Fail> {
    let mut changes = Vec::new(alloc);
    changes.push(change(rt, 2, None))?;
    changes.push(change(rt, 4, Some(numbers(alloc, 4, 40)?)))?;
    Ok(Changes::new(changes))
}

/// The opening.
fn opening(rt: &impl Abort, alloc: Global) -> Result<Opening, Fail> {
    Ok(Opening {
        rows: rows(rt, alloc)?,
        limbo: limbo(rt, alloc)?,
        states: States::new(Vec::new(alloc)),
        next: TxNo(5),
        limit: TxNo(100),
        free: 0,
    })
}

/// Ends an opening.
fn let_go(_opening: Opening) {}

/// Its text.
const LINES: &str = "OPEN NEXT 5
OPEN KV 1, 10
LIMBO 3 KV DELETE 2
LIMBO 3 KV 4, 40
";

/// The trace of the opening alone.
fn opened(rt: &impl Abort, alloc: Global) -> Result<Trace, Fail> {
    let opening = opening(rt, alloc)?;
    let mut trace = Trace::new(alloc);
    trace.put_opening(&opening);
    let_go(opening);
    Ok(trace)
}

#[test]
fn an_opening_is_its_next_number_its_rows_and_its_changes_in_limbo(
    rt: HostRuntime,
) -> Result<(), Fail> {
    let trace = opened(&rt, rt.alloc())?;
    assert!(rt; trace.whole);
    assert!(rt; trace.text.as_slice() == LINES.as_bytes());
    Ok(())
}
