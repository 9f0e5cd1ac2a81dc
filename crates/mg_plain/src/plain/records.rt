//! The plain machine as a keeper of records.

ghost use Rattle.std.specs.Prelude.{◌≡◌, ◌≤◌, ◌↔◌, ◌&&◌, ◌∷◌, [], not, IfOk, IsTrue, OnErr, OnOk, Ok, Some, length};
ghost use Rattle.mg_model.specs.Answers.{is_active};
ghost use Rattle.mg_model.specs.Machine.{has_point};
ghost use Rattle.mg_plain.specs.Keeping.{known_of, with_session};
ghost use Rattle.std.specs.Option.{option_copied};
ghost use Rattle.mg_value.specs.declared.shape.TheConstants.{MOST_COLUMNS};
ghost use Rattle.mg_model.specs.Catalog.{catalog_name, key_of};
ghost use Rattle.mg_records.specs.Reading.{FindsFitting, StandsUnderKey};
ghost use Rattle.mg_plain.specs.Obeying.{as_number as as_number_of};
ghost use Rattle.mg_records.specs.Writing.{rows_made as rows_made_of};
ghost use Rattle.mg_plain.specs.Records.{means, behind, primary, rows_seen, FoundAt, InsertsAll};
ghost use Rattle.mg_plain.specs.RecordsLaws.{crashes_hold, holds_on, pages_are_few, sessions_are_one, tables_are_seen, walks_are_whole};
ghost use Rattle.mg_plain.specs.Kept.{kept};

use crate::Plain;
use crate::known::BegunBy;
use crate::lookup::point_place;
use mg_base::{Memory, PageNo, TxNo};
use mg_catalog::rows_of;
use mg_expr::Expr;
use mg_model::{Answer, CATALOG, Event, Index, Indexes, Mode, Point, Refusal, Rows, Table};
use mg_records::{Found, Records, Write};
use mg_value::{Key, Name, Row, Shape, Value, order, row_fits, values_are_ordered};
use std::alloc::Global;
use std::cmp::Ordering;

/// How many rows stand up to a place.
pub(crate) fn number_behind(after: Option<&usize>) -> usize
    ensures { result ≡ behind (option_copied after.entry) }
{
    match after {
        None => 0,
        Some(place) => *place,
    }
}

/// The rows of the catalog that say a new table, that of the table first.
fn rows_made(alloc: Global, name: &Name, shape: &Shape) -> Result<Vec<Row>, Memory>
    requires { length shape.now.columns ≤ MOST_COLUMNS }
    ensures { IfOk result (λ rows. rows.items ≡ rows_made_of name.now shape.now) }
{
    let table = Table {
        name: *name,
        shape: shape.copy(alloc)?,
        pointer: PageNo(0),
        indexes: Indexes::new(Vec::new(alloc)),
    };
    let mut rows = rows_of(alloc, &table)?;
    let Some(first) = rows.pop() else {
        return Err(Memory);
    };
    rows.insert(0, first)?;
    Ok(rows)
}

/// Tells whether two values are equal.
fn is_same(a: &Value, b: &Value) -> bool
    ensures { IsTrue result ↔ (a.now ≡ b.now) }
{
    values_are_ordered();
    matches!(order(a, b), Ordering::Equal)
}

/// Tells whether the key of a row of a shape is this value.
fn has_key(shape: &Shape, row: &Row, key: &Value) -> bool
    ensures { IsTrue result ↔ (key_of shape.now row.now ≡ key.now) }
{
    values_are_ordered();
    match row.as_slice().get(usize::from(shape.key)) {
        None => key.is_null(),
        Some(value) => is_same(value, key),
    }
}

/// A copy of a row with its key. One that may not stand under it in a table of the shape, which no call has put there, is
/// told as want of memory.
pub(crate) fn keyed(alloc: Global, shape: &Shape, row: &(Value, Row)) -> Result<(Key, Row), Memory>
    ensures is { IfOk result (λ keyed. keyed ≡ row.now) }
    ensures stands { IfOk result (λ keyed. StandsUnderKey shape.now (Some keyed)) }
{
    if !row_fits(shape, &row.1) || !has_key(shape, &row.1, &row.0) {
        return Err(Memory);
    }
    let Some(key) = Key::new(row.0.copy(alloc)?) else {
        return Err(Memory);
    };
    Ok((key, row.1.copy(alloc)?))
}

/// The list of indexes of a table whose key has this place: the primary one, which has no pages.
fn primary_index(alloc: Global, name: &Name, column: u16) -> Result<Indexes, Memory>
    ensures { IfOk result (λ indexes. indexes ≡ primary name.now column ∷ []) }
{
    let mut indexes = Vec::new(alloc);
    indexes.push(Index {
        name: *name,
        column,
        root: PageNo(0),
    })?;
    Ok(Indexes::new(indexes))
}

/// The answer to a beginning as a result.
fn as_number(given: Result<Answer, Refusal>) -> Result<TxNo, Refusal>
    ensures { result ≡ as_number_of given }
{
    match given {
        Ok(Answer::Fine) => Err(Refusal::Memory),
        Ok(Answer::Tx(t)) => Ok(t),
        Ok(Answer::Rows(_)) => Err(Refusal::Memory),
        Ok(Answer::No(refusal)) => Err(refusal),
        Err(refusal) => Err(refusal),
    }
}

impl Plain {
    /// Notes which session is to begin the next transaction.
    fn note_session(&mut self, session: u8) -> Result<(), Memory>
        ensures ok { OnOk result (kept self.new ≡ with_session session (kept self.old)) }
        ensures err { OnErr result (kept self.new ≡ kept self.old) }
    {
        let number = self.known.len();
        match self.begun_by.insert(0, BegunBy { number, session }) {
            Ok(()) => Ok(()),
            Err(_) => Err(Memory),
        }
    }

    /// Tells whether a transaction is active, and has set no such point.
    fn lacks_point(&self, t: TxNo, point: &Point) -> bool
        ensures { result ≡ (is_active (known_of (kept self.now) t.0).state
            && not (has_point t.0 point.now (kept self.now).steps)) }
    {
        match self.expect_active(t) {
            Ok(()) => !self.has_set(t, point),
            Err(_) => false,
        }
    }

    /// Tells whether a transaction has set a point that stands.
    fn has_set(&self, t: TxNo, point: &Point) -> bool
        ensures { result ≡ has_point t.0 point.now (kept self.now).steps }
    {
        point_place(&self.steps, t.0, point).is_some()
    }

    /// A copy of the row with a number among those that a transaction sees, None past the last one.
    ///
    /// A row that may not stand in the table, as none does that was written, is told as want of memory.
    fn seen_at(&self, t: u32, table: &Table, at: usize) -> Result<Option<Found<usize>>, Memory>
        ensures found { FoundAt (rows_seen (kept self.now) t table.now.name) at result }
        ensures fits { IfOk result (λ found. FindsFitting table.now.shape (Ok found)) }
    {
        let rows = self.seen_rows(t, &table.name)?;
        if at >= rows.len() {
            return Ok(None);
        }
        match rows.get(at) {
            Some(row) => Ok(Some(Found {
                place: at + 1,
                row: Some(keyed(self.alloc, &table.shape, row)?),
            })),
            None => Ok(None),
        }
    }

    /// Brings rows into the catalog, one after another.
    fn insert_each(&mut self, t: TxNo, catalog: &Name, rows: &[Row]) -> Result<(), Refusal>
        requires { catalog.now ≡ catalog_name }
        ensures { InsertsAll self.old self.new t rows.now result }
    {
        for row in rows {
            match self.insert_row(t, catalog, row) {
                Ok(()) => {}
                Err(refusal) => return Err(refusal),
            }
        }
        Ok(())
    }
}

impl Records for Plain {
    type Place = usize;

    ghost meaning = { means };

    fn copy_place(_alloc: Global, place: &usize) -> Result<usize, Memory> {
        Ok(*place)
    }

    fn begin(&mut self, session: u8, mode: Mode) -> Result<TxNo, Refusal> {
        match self.note_session(session) {
            Ok(()) => {
                let event = Event::Begin(session, mode);
                let given = self.obey(&event);
                drop(event);
                as_number(given)
            }
            Err(_) => Err(Refusal::Memory),
        }
    }

    fn look(&mut self, t: TxNo) -> Result<(), Refusal> {
        self.finish(Event::Look(t))
    }

    fn table(&mut self, t: TxNo, name: &Name) -> Result<Table, Refusal> {
        match self.expect_active(t) {
            Ok(()) => {}
            Err(refusal) => return Err(refusal),
        }
        match self.shape(t.0, name) {
            Ok(Some(shape)) => match primary_index(self.alloc, name, shape.key) {
                Ok(indexes) => Ok(Table {
                    name: *name,
                    shape,
                    pointer: PageNo(0),
                    indexes,
                }),
                Err(_) => Err(Refusal::Memory),
            },
            Ok(None) => Err(Refusal::NoTable),
            Err(_) => Err(Refusal::Memory),
        }
    }

    fn scan_step(
        &mut self,
        t: TxNo,
        table: &Table,
        after: Option<&usize>,
    ) -> Result<Option<Found<usize>>, Refusal> {
        match self.expect_active(t) {
            Ok(()) => {}
            Err(refusal) => return Err(refusal),
        }
        let place = number_behind(after);
        match self.seen_at(t.0, table, place) {
            Ok(found) => Ok(found),
            Err(_) => Err(Refusal::Memory),
        }
    }

    fn found(
        &mut self,
        t: TxNo,
        _name: &Name,
        _filter: &Option<Expr>,
        _rows: &Rows,
    ) -> Result<(), Refusal> {
        let active = self.expect_active(t);
        self.note(Some(t.0), None);
        active
    }

    fn write_step(&mut self, t: TxNo, table: &Table, write: &Write) -> Result<(), Refusal> {
        match write {
            Write::Insert(row) => self.insert_row(t, &table.name, row),
            Write::Change(key, row) => self.change_row(t, &table.name, key, row),
            Write::Erase(key) => self.erase_row(t, &table.name, key),
        }
    }

    fn create_table(&mut self, t: TxNo, name: &Name, shape: &Shape) -> Result<(), Refusal> {
        let Some(catalog) = Name::new(CATALOG) else {
            return self.fail(t);
        };
        match rows_made(self.alloc, name, shape) {
            Ok(rows) => self.insert_each(t, &catalog, &rows),
            Err(_) => self.fail(t),
        }
    }

    fn mark(&mut self, t: TxNo) -> Result<(), Refusal> {
        self.finish(Event::Mark(t))
    }

    fn undo_mark(&mut self, t: TxNo) -> Result<(), Refusal> {
        self.go_back(t, Point::LastMark)
    }

    fn savepoint(&mut self, t: TxNo, name: &Name) -> Result<(), Refusal> {
        self.finish(Event::Savepoint(t, *name))
    }

    fn back_to(&mut self, t: TxNo, name: &Name) -> Result<bool, Refusal> {
        let point = Point::SavepointNamed(*name);
        if self.lacks_point(t, &point) {
            return Ok(false);
        }
        match self.go_back(t, point) {
            Ok(()) => Ok(true),
            Err(refusal) => Err(refusal),
        }
    }

    fn commit_ask(&mut self, t: TxNo) -> Result<(), Refusal> {
        self.expect_active(t)
    }

    fn commit_step(&mut self, t: TxNo) -> Result<bool, Refusal> {
        match self.expect_active(t) {
            Ok(()) => Ok(true),
            Err(refusal) => Err(refusal),
        }
    }

    fn commit_end(&mut self, t: TxNo) -> Result<(), Refusal> {
        self.finish(Event::Commit(t))
    }

    fn rollback(&mut self, t: TxNo) -> Result<(), Refusal> {
        self.finish(Event::Rollback(t))
    }

    ghost seen = { tables_are_seen };

    ghost whole = { walks_are_whole };

    ghost few = { pages_are_few };

    ghost crashes = { crashes_hold };

    ghost lasts = { holds_on };

    ghost one = { sessions_are_one };
}
