//! The catalog's rows under a choice of the limbo transactions that are committed, and whether they
//! are lawful under each choice.

ghost use Rattle.std.specs.Prelude.{◌≡◌, ◌≢◌, ◌↔◌, ◌<◌, ◌^◌, ◌++◌, ℕ, List, [], ◌∷◌, length, true, IsTrue, IfErr, IfOk, MatchOption, None, OnOk, Some};
ghost use Rattle.mg_reading.specs.Found.{image_facts};
ghost use Rattle.mg_reading.specs.Readable.{Refutes};
ghost use Rattle.mg_image.specs.Catalog.{IsWithin, committed_with};
ghost use Rattle.mg_image.specs.Records.{shown};
ghost use Rattle.mg_image.specs.Tables.{Has, has};
ghost use Rattle.mg_layout.specs.Choices.{AreAlwaysLawful, AreLawful, AreLawfulFrom, DoTablesStay, HasWriter, HasWriters, IsCatalogFound, Names, RowsName, rows_with};
ghost use Rattle.mg_model.specs.declared.table.Table.{Table as AnyTable};
ghost use Rattle.mg_model.specs.CatalogRules.{AreTables};
ghost use Rattle.mg_catalog.specs.ByKey.{by_key};

use crate::linked::has_page;
use crate::tables::{do_tables_fit, do_tables_stay};
use mg_base::{Memory, TxState};
use mg_catalog::{CatFault, tables_of};
use mg_image::Entry;
use mg_model::Table;
use mg_reading::{Found, Image, ReadFault, Rule};
use mg_value::Row;
use std::alloc::Global;

/// Whether a transaction is committed once these limbo transactions are.
fn is_committed_with(image: &Image, chosen: &[u32], t: u32) -> bool
    ensures { result ≡ committed_with (image_facts image.now) (has chosen.now) t }
{
    match image.state(t) {
        TxState::Committed => true,
        TxState::Limbo => has_page(chosen, t),
        TxState::Active => false,
        TxState::Dead => false,
    }
}

/// The row that these versions show once these limbo transactions are committed.
fn shown_with<'a>(image: &Image, chosen: &[u32], entries: &'a [Entry]) -> Option<&'a Row>
    ensures { MatchOption result
        (shown (committed_with (image_facts image.now) (has chosen.now)) entries.now ≡ None)
        (λ row. shown (committed_with (image_facts image.now) (has chosen.now)) entries.now
        ≡ Some row.now) }
{
    let mut rest = entries;
    while let Some((entry, older)) = rest.split_first() {
        if is_committed_with(image, chosen, entry.version.tx.0) {
            return if entry.version.deleted {
                None
            } else {
                Some(&entry.row)
            };
        }
        rest = older;
    }
    None
}

/// The rows that these records show once these limbo transactions are committed.
fn shown_rows(
    alloc: Global,
    image: &Image,
    chosen: &[u32],
    found: &[Found],
) -> Result<Vec<Row>, Memory>
    ensures { IfOk result (λ rows.
        rows.items ≡ rows_with (image_facts image.now) found.now (has chosen.now)) }
{
    let mut rows = Vec::new(alloc);
    let mut rest = found;
    while let Some((first, later)) = rest.split_first() {
        if let Some(row) = shown_with(image, chosen, &first.entries) {
            rows.push(row.copy(alloc)?)?;
        }
        rest = later;
    }
    Ok(rows)
}

/// The tables that rows name, where each of them fits the image's pages.
///
/// # Errors
///
/// `Broken` exactly where one does not.
fn tables_that_fit(image: &Image, rows: &[Row], tables: Vec<Table>) -> Result<Vec<Table>, ReadFault>
    requires { AreTables (by_key rows.now) tables.items }
    ensures tables { IfOk result (λ fit. RowsName image.now.size rows.now fit.items) }
    ensures broken { IfErr result (Refutes
        ((fit : List AnyTable) × RowsName image.now.size rows.now fit)) }
{
    if !do_tables_fit(image.size(), &tables) {
        return Err(ReadFault::Broken(Rule::Pages));
    }
    Ok(tables)
}

/// The tables that the rows of the catalog name once these limbo transactions are committed.
///
/// # Errors
///
/// `Broken` only where the rows are not lawful; `Memory`.
pub fn tables_with(
    alloc: Global,
    image: &Image,
    found: &[Found],
    chosen: &[u32],
) -> Result<Vec<Table>, ReadFault>
    requires { IsCatalogFound (image_facts image.now) found.now }
    ensures tables { IfOk result (λ tables. Names image.now.size (image_facts image.now)
        found.now (has chosen.now) tables.items) }
    ensures broken { IfErr result (Refutes
        (AreLawful image.now.size (image_facts image.now) found.now (has chosen.now))) }
{
    let rows = shown_rows(alloc, image, chosen, found)?;
    match tables_of(alloc, &rows) {
        Ok(tables) => tables_that_fit(image, &rows, tables),
        Err(CatFault::BadTable { .. }) => Err(ReadFault::Broken(Rule::Pages)),
        Err(CatFault::Memory) => Err(ReadFault::Memory),
    }
}

/// Tests that the rows of the catalog are lawful under two choices, and that the tables of the
/// first, which chooses no other transactions, are those of the second, too.
///
/// # Errors
///
/// `Broken` only where it is not so; `Memory`.
fn check_choice(
    alloc: Global,
    image: &Image,
    found: &[Found],
    taken: &[u32],
    more: &[u32],
) -> Result<(), ReadFault>
    requires { IsCatalogFound (image_facts image.now) found.now }
    ensures stay { OnOk result (DoTablesStay image.now.size
        (rows_with (image_facts image.now) found.now (has taken.now))
        (rows_with (image_facts image.now) found.now (has more.now))) }
    ensures broken { IfErr result (Refutes (DoTablesStay image.now.size
        (rows_with (image_facts image.now) found.now (has taken.now))
        (rows_with (image_facts image.now) found.now (has more.now)))) }
{
    let tables = tables_with(alloc, image, found, taken)?;
    let others = tables_with(alloc, image, found, more)?;
    if !do_tables_stay(&tables, &others) {
        return Err(ReadFault::Broken(Rule::Pages));
    }
    Ok(())
}

/// A list of transactions with one more.
fn with_one(alloc: Global, taken: &[u32], t: u32) -> Result<Vec<u32>, Memory>
    ensures { IfOk result (λ more. more.items ≡ taken.now ++ t ∷ []) }
{
    let mut more = Vec::from_slice(alloc, taken)?;
    more.push(t)?;
    Ok(more)
}

/// Tests that the rows of the catalog are lawful under each two choices that take some limbo
/// transactions and any of those that are open, the second all of the first, and that a table of
/// the first is one of the second, too.
///
/// # Errors
///
/// `Broken` only where it is not so for some choices; `Memory`.
pub fn check_choices(
    alloc: Global,
    image: &Image,
    found: &[Found],
    taken: &[u32],
    more: &[u32],
    open_: &[u32],
) -> Result<(), ReadFault>
    requires catalog { IsCatalogFound (image_facts image.now) found.now }
    requires within { IsWithin (has taken.now) (has more.now) }
    ensures lawful { OnOk result (AreLawfulFrom image.now.size (image_facts image.now) found.now
        taken.now more.now open_.now) }
    ensures broken { IfErr result (Refutes
        (AreAlwaysLawful image.now.size (image_facts image.now) found.now)) }
{
    let Some((t, later)) = open_.split_first() else {
        return check_choice(alloc, image, found, taken, more);
    };
    check_choices(alloc, image, found, taken, more, later)?;
    let wider = with_one(alloc, more, *t)?;
    check_choices(alloc, image, found, taken, &wider, later)?;
    let both = with_one(alloc, taken, *t)?;
    check_choices(alloc, image, found, &both, &wider, later)
}

/// Adds the transaction of a record's newest version, if it is in limbo and not there already.
fn add_writer(image: &Image, entries: &[Entry], writers: &mut Vec<u32>) -> Result<(), Memory>
    ensures has { OnOk result (HasWriter (image_facts image.now) writers.new.items entries.now) }
    ensures keeps { OnOk result ((t : ℕ) → Has writers.old.items t → Has writers.new.items t) }
{
    let Some((newest, _)) = entries.split_first() else {
        return Ok(());
    };
    let t = newest.version.tx.0;
    if image.state(t) != TxState::Limbo || has_page(writers, t) {
        return Ok(());
    }
    writers.push(t)?;
    Ok(())
}

/// The limbo transactions that wrote the newest version of a record, each once.
pub fn limbo_writers(alloc: Global, image: &Image, found: &[Found]) -> Result<Vec<u32>, Memory>
    ensures { IfOk result (λ writers.
        HasWriters (image_facts image.now) writers.items found.now) }
{
    let mut writers = Vec::new(alloc);
    let mut rest = found;
    while let Some((first, later)) = rest.split_first() {
        add_writer(image, &first.entries, &mut writers)?;
        rest = later;
    }
    Ok(writers)
}
