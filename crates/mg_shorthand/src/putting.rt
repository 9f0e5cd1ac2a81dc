//! The line `@put`.

ghost use Rattle.std.specs.Prelude.{◌≡◌, ℤ, IfOk, None, Some, false, true};
ghost use Rattle.mg_base.specs.declared.transaction.TxState.TheVariants.{Active};
ghost use Rattle.mg_value.specs.declared.value.Value.TheVariants as values;
ghost use Rattle.mg_model.specs.declared.opening.Opening.{Opening};
ghost use Rattle.mg_model.specs.History.{Entries};
ghost use Rattle.mg_model.specs.Changes.{row_at};
ghost use Rattle.mg_model.specs.Machine.{state_of, view};
ghost use Rattle.mg_model.specs.NewDatabase.{kv_name};
ghost use Rattle.mg_records.specs.Keeping.{refusal_in};
ghost use Rattle.mg_records.specs.Reading.{shape_seen};
ghost use Rattle.mg_records.specs.Writing.{FitsShape, event_of};
ghost use Rattle.mg_transcript.specs.Shorthand.{Puts, are_two_numbers, is_number as is_number_of, is_of_numbers as is_of_numbers_of, pair_of, put_event};
ghost use Rattle.mg_courses.specs.Running.{refusal_answered};
ghost use Rattle.mg_shorthand.specs.Going.{Goes, GoesAt, IsFromOutside, ReadsOn, Spares, SparesOn};
ghost use Rattle.mg_shorthand.specs.Keys.{sees_key, write_of};

use crate::giving_up::give_up_for;
use crate::settling::settle;
use crate::visiting::visit_key;
use mg_base::{Memory, TxNo};
use mg_courses::Ending;
use mg_model::{Refusal, Table};
use mg_records::{Records, Write};
use mg_script::Reply;
use mg_tending::{Collects, Keyed};
use mg_value::{Column, Key, Kind, Name, Row, Shape, Value};
use std::alloc::Global;

/// Does what a put is for, in its transaction, and ends that: the table KV gets a row with the key and the value, or
/// the row with the key becomes this one.
pub(crate) fn put<R: Keyed + Collects>(
    r: &mut R,
    alloc: Global,
    t: TxNo,
    key: i64,
    value: i64,
) -> Ending
    ensures goes { Goes R.meaning r.old r.new t result.over (λ o h after. Puts o key value h t after result.reply) }
    ensures spares { Spares R.meaning r.old r.new t (refusal_answered result.reply) result.over }
{
    match r.table(t, &kv()) {
        Ok(table) => put_in(r, alloc, t, table, key, value),
        Err(refusal) => give_up_for(r, t, refusal),
    }
}

// The name of the table.
pub(crate) fn kv() -> Name
    ensures { result ≡ kv_name }
{
    Name::new(b"KV").unwrap()
}

// The table was given.
fn put_in<R: Keyed + Collects>(
    r: &mut R,
    alloc: Global,
    t: TxNo,
    table: Table,
    key: i64,
    value: i64,
) -> Ending
    requires named { table.name ≡ kv_name }
    requires given { R.meaning.table r.old t.0 table.name ≡ Some table }
    ensures goes { (o : Opening) (h : Entries) → shape_seen o h t.0 kv_name ≡ Some table.shape
        → GoesAt R.meaning r.old r.new o h t result.over (λ after. Puts o key value h t after result.reply) }
    ensures spares { SparesOn R.meaning r.old r.new t None (refusal_answered result.reply) result.over }
{
    if !is_of_numbers(&table.shape) {
        return give_up_for(r, t, Refusal::NoTable);
    }
    match find_key(r, t, &table, &key_of(key)) {
        Ok(sees) => write(r, alloc, t, &table, sees, key, value),
        Err(refusal) => give_up_for(r, t, refusal),
    }
}

// Whether the transaction sees a row with a key. The record of the key is visited.
fn find_key<R: Keyed + Collects>(
    r: &mut R,
    t: TxNo,
    table: &Table,
    key: &Key,
) -> Result<bool, Refusal>
    requires given { R.meaning.table r.old t.0 table.now.name ≡ Some table.now }
    ensures given { R.meaning.table r.new t.0 table.now.name ≡ Some table.now }
    ensures sees { (o : Opening) (h : Entries) → R.meaning.stands r.old o h → state_of o h t.0 ≡ Active
        → IfOk result (λ sees. sees ≡ sees_key o h t.0 table.now.name key.now) }
    ensures outside { (o : Opening) (h : Entries) → R.meaning.stands r.old o h → state_of o h t.0 ≡ Active
        → IsFromOutside result }
    ensures reads { (o : Opening) (h : Entries) → R.meaning.stands r.old o h
        → ReadsOn R.meaning r.old r.new o h }
    ensures spares { Spares R.meaning r.old r.new t (refusal_in result) false }
{
    match visit_key(r, t, table, key) {
        Ok(row) => Ok(row.is_some()),
        Err(refusal) => Err(refusal),
    }
}

// It was looked whether there is a row with the key.
fn write<R: Records>(
    r: &mut R,
    alloc: Global,
    t: TxNo,
    table: &Table,
    sees: bool,
    key: i64,
    value: i64,
) -> Ending
    requires named { table.now.name ≡ kv_name }
    requires given { R.meaning.table r.old t.0 table.now.name ≡ Some table.now }
    requires numbers { is_of_numbers_of (Some table.now.shape) ≡ true }
    ensures goes { (o : Opening) (h : Entries) → shape_seen o h t.0 kv_name ≡ Some table.now.shape
        → sees ≡ sees_key o h t.0 kv_name (values.Int key)
        → GoesAt R.meaning r.old r.new o h t result.over (λ after. Puts o key value h t after result.reply) }
    ensures spares { SparesOn R.meaning r.old r.new t None (refusal_answered result.reply) result.over }
{
    match write_for(alloc, sees, key, value) {
        Ok(write) => write_so(r, t, table, &write),
        Err(_) => give_up_for(r, t, Refusal::Memory),
    }
}

// The write of a put: another row with the key, or a new one.
fn write_for(alloc: Global, sees: bool, key: i64, value: i64) -> Result<Write, Memory>
    ensures { IfOk result (λ write. write ≡ write_of sees key value) }
{
    let row = pair(alloc, key, value)?;
    if sees {
        return Ok(Write::Change(key_of(key), row));
    }
    Ok(Write::Insert(row))
}

// A row of the table.
fn pair(alloc: Global, key: i64, value: i64) -> Result<Row, Memory>
    ensures { IfOk result (λ row. row ≡ pair_of key value) }
{
    let mut values = Vec::new(alloc);
    values.push(Value::Int(key))?;
    values.push(Value::Int(value))?;
    Ok(Row::new(values))
}

/// A number as a key.
pub(crate) fn key_of(key: i64) -> Key
    ensures { result ≡ values.Int key }
{
    Key::new(Value::Int(key)).unwrap()
}

// Writes a row, and ends the transaction.
fn write_so<R: Records>(r: &mut R, t: TxNo, table: &Table, write: &Write) -> Ending
    requires named { table.now.name ≡ kv_name }
    requires given { R.meaning.table r.old t.0 table.now.name ≡ Some table.now }
    requires fits { FitsShape table.now.shape write.now }
    ensures goes { (o : Opening) (h : Entries) (key value : ℤ)
        → is_of_numbers_of (shape_seen o h t.0 kv_name) ≡ true
        → event_of t kv_name write.now ≡ put_event t key value (row_at (view o h t.0) kv_name (values.Int key))
        → GoesAt R.meaning r.old r.new o h t result.over (λ after. Puts o key value h t after result.reply) }
    ensures spares { SparesOn R.meaning r.old r.new t None (refusal_answered result.reply) result.over }
{
    match r.write_step(t, table, write) {
        Ok(()) => settle(r, t, Reply::Tx(t)),
        Err(refusal) => give_up_for(r, t, refusal),
    }
}

// Whether a table has two columns of numbers, the first of which is its key.
fn is_of_numbers(shape: &Shape) -> bool
    ensures { result ≡ is_of_numbers_of (Some shape.now) }
{
    let two = are_two(shape.columns.as_slice());
    shape.key == 0 && two
}

// Whether there are two columns, both of numbers.
fn are_two(columns: &[Column]) -> bool
    ensures { result ≡ are_two_numbers columns.now }
{
    match columns {
        [a, b] => is_number(a.kind) && is_number(b.kind),
        _ => false,
    }
}

fn is_number(kind: Kind) -> bool
    ensures { result ≡ is_number_of kind }
{
    match kind {
        Kind::Int => true,
        Kind::Text(_) => false,
    }
}
