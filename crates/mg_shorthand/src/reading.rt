//! The value at a key, in a table KV as a new database has it: its row is asked for by its key, and no table is
//! walked.

ghost use Rattle.std.specs.Prelude.{◌≡◌, ◌∷◌, [], IfOk, None, Option, Some, false, map, true};
ghost use Rattle.mg_expr.specs.Trees.{Column as ColumnTree, tree_of};
ghost use Rattle.mg_model.specs.declared.opening.Opening.{Opening};
ghost use Rattle.mg_model.specs.Changes.{Cells, same_name};
ghost use Rattle.mg_model.specs.History.{Entries};
ghost use Rattle.mg_model.specs.NewDatabase.{kv_name};
ghost use Rattle.mg_records.specs.Reading.{shape_seen};
ghost use Rattle.mg_rows.specs.Selecting.{Selects};
ghost use Rattle.mg_statements.specs.Plain.{tree_in};
ghost use Rattle.mg_transcript.specs.Selects.{reply_with};
ghost use Rattle.mg_transcript.specs.Shorthand.{value_of_key};
ghost use Rattle.mg_transcript.specs.Statements.{rows_found};
ghost use Rattle.mg_courses.specs.Running.{refusal_answered};
ghost use Rattle.mg_shorthand.specs.Going.{SparesOn};
ghost use Rattle.mg_shorthand.specs.Keys.{HasReadAt, are_key_and_value as are_key_and_value_of, found_of, has_key_and_value as has_key_and_value_of, with_key};

use crate::putting::key_of;
use crate::visiting::visit_key;
use mg_base::{Memory, TxNo};
use mg_expr::{EvalFault, Expr, Sign};
use mg_model::{Refusal, Rows, Table};
use mg_records::Records;
use mg_rows::{Outcome, StatementFault, select};
use mg_script::Reply;
use mg_tending::{Collects, Keyed};
use mg_value::{Column, Row, Shape};
use std::alloc::Global;

/// Whether a table has two columns, the key K and a value V. Somebody may have made another KV.
pub(crate) fn has_key_and_value(shape: &Shape) -> bool
    ensures { result ≡ has_key_and_value_of shape.now }
{
    let both = are_key_and_value(shape.columns.as_slice());
    shape.key == 0 && both
}

// Whether the columns are K and V.
fn are_key_and_value(columns: &[Column]) -> bool
    ensures { result ≡ are_key_and_value_of columns.now }
{
    match columns {
        [a, b] => is_named(a, b"K") && is_named(b, b"V"),
        _ => false,
    }
}

fn is_named(column: &Column, name: &[u8]) -> bool
    ensures { result ≡ same_name column.now.name name.now }
{
    column.name.as_slice() == name
}

/// Reads the value that such a table has at a key. The record of the key is visited.
pub(crate) fn value_at<R: Keyed + Collects>(
    r: &mut R,
    alloc: Global,
    t: TxNo,
    table: &Table,
    key: i64,
) -> Reply
    requires named { table.now.name ≡ kv_name }
    requires given { R.meaning.table r.old t.0 table.now.name ≡ Some table.now }
    requires shape { has_key_and_value_of table.now.shape ≡ true }
    ensures reads { (o : Opening) (h : Entries) → shape_seen o h t.0 kv_name ≡ Some table.now.shape
        → HasReadAt R.meaning r.old r.new o h t key result }
    ensures spares { SparesOn R.meaning r.old r.new t None (refusal_answered result) false }
{
    match visit_key(r, t, table, &key_of(key)) {
        Ok(row) => tell(r, alloc, t, table, key, row),
        Err(refusal) => Reply::No(StatementFault::Engine(refusal)),
    }
}

// Tells the row as what was found, none where there is none, and answers its value.
fn tell<R: Records>(
    r: &mut R,
    alloc: Global,
    t: TxNo,
    table: &Table,
    key: i64,
    row: Option<Row>,
) -> Reply
    requires named { table.now.name ≡ kv_name }
    requires shape { has_key_and_value_of table.now.shape ≡ true }
    ensures reads { (o : Opening) (h : Entries) → shape_seen o h t.0 kv_name ≡ Some table.now.shape
        → rows_found o h t table.now.shape (value_of_key key) ≡ Some (found_of row)
        → HasReadAt R.meaning r.old r.new o h t key result }
    ensures spares { SparesOn R.meaning r.old r.new t None (refusal_answered result) false }
{
    match to_be_told(alloc, key, row) {
        Ok(told) => tell_so(r, alloc, t, table, key, &told),
        Err(_) => Reply::No(StatementFault::Engine(Refusal::Memory)),
    }
}

// What is told: the filter, and the rows that pass it.
#[derive(Drop)]
struct Telling {
    filter: Option<Expr>,
    rows: Rows,
}

// The same, of the row with a key.
fn to_be_told(alloc: Global, key: i64, row: Option<Row>) -> Result<Telling, Memory>
    ensures filter { IfOk result (λ told. tree_in told.filter ≡ Some (with_key key)) }
    ensures rows { IfOk result (λ told. told.rows ≡ found_of row) }
{
    let rows = at_most_one(alloc, row)?;
    let filter = key_filter(alloc, key)?;
    Ok(Telling {
        filter: Some(filter),
        rows,
    })
}

// The row, if there is one.
fn at_most_one(alloc: Global, row: Option<Row>) -> Result<Rows, Memory>
    ensures { IfOk result (λ rows. rows ≡ found_of row) }
{
    match row {
        Some(row) => one_row(alloc, row),
        None => Ok(Rows::new(Vec::new(alloc))),
    }
}

// One row.
fn one_row(alloc: Global, row: Row) -> Result<Rows, Memory>
    ensures { IfOk result (λ rows. rows ≡ row ∷ []) }
{
    let mut rows = Vec::new(alloc);
    rows.push(row)?;
    Ok(Rows::new(rows))
}

// K = key, where K is the first column.
fn key_filter(alloc: Global, key: i64) -> Result<Expr, Memory>
    ensures { IfOk result (λ filter. tree_of filter ≡ with_key key) }
{
    let column = Box::new(alloc, Expr::Column(0))?;
    let constant = Box::new(alloc, Expr::Integer(key))?;
    Ok(Expr::Compare(column, Sign::Equal, constant))
}

// Tells that, and answers the values.
fn tell_so<R: Records>(
    r: &mut R,
    alloc: Global,
    t: TxNo,
    table: &Table,
    key: i64,
    told: &Telling,
) -> Reply
    requires named { table.now.name ≡ kv_name }
    requires shape { has_key_and_value_of table.now.shape ≡ true }
    requires filter { tree_in told.now.filter ≡ Some (with_key key) }
    ensures reads { (row : Option Cells) (o : Opening) (h : Entries) → told.now.rows ≡ found_of row
        → shape_seen o h t.0 kv_name ≡ Some table.now.shape
        → rows_found o h t table.now.shape (value_of_key key) ≡ Some (found_of row)
        → HasReadAt R.meaning r.old r.new o h t key result }
    ensures spares { SparesOn R.meaning r.old r.new t None (refusal_answered result) false }
{
    match r.found(t, &table.name, &told.filter, &told.rows) {
        Ok(()) => reply_of(values_of(alloc, &told.rows)),
        Err(refusal) => Reply::No(StatementFault::Engine(refusal)),
    }
}

// The values of rows: what they have in the second column.
fn values_of(alloc: Global, rows: &Rows) -> Result<Rows, EvalFault>
    ensures { Selects (Some (ColumnTree 1 ∷ [])) None 0 rows.now result }
{
    let values = match second(alloc) {
        Ok(values) => Some(values),
        Err(_) => return Err(EvalFault::Memory),
    };
    select(alloc, &values, None, 0, rows.as_slice())
}

// The second column alone.
fn second(alloc: Global) -> Result<Vec<Expr>, Memory>
    ensures { IfOk result (λ values. map tree_of values.items ≡ ColumnTree 1 ∷ []) }
{
    let mut values = Vec::new(alloc);
    values.push(Expr::Column(1))?;
    Ok(values)
}

// That as an answer.
fn reply_of(given: Result<Rows, EvalFault>) -> Reply
    ensures { result ≡ reply_with given }
{
    match given {
        Ok(rows) => Reply::Ok(Outcome::Rows(rows)),
        Err(fault) => Reply::No(StatementFault::from(fault)),
    }
}
