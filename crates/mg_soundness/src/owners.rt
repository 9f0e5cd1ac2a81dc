//! Whose versions a table has: where no committed row of the catalog names it, those of the
//! transactions alone that have made it.

ghost use Rattle.std.specs.Prelude.{◌≡◌, ◌↔◌, ◌∷◌, IsTrue};
ghost use Rattle.mg_base.specs.declared.transaction.TxState.TheVariants.{Dead, Limbo};
ghost use Rattle.mg_catalog.specs.ByKey.{row_key};
ghost use Rattle.mg_image.specs.Inventory.{state_at};
ghost use Rattle.mg_image.specs.RecordRules.{Each};
ghost use Rattle.mg_image.specs.Tables.{stands_of};
ghost use Rattle.mg_layout.specs.Standing.{layout_in, stands_in};
ghost use Rattle.mg_model.specs.Catalog.{catalog_name, table_key};
ghost use Rattle.mg_reading.specs.Found.{EachFound};
ghost use Rattle.mg_reading.specs.ImageView.{pages_in};
ghost use Rattle.mg_soundness.specs.Joined.{EachTable, founds_in};
ghost use Rattle.mg_soundness.specs.OwnRule.{AreOwned, IsMaking, IsOwn, IsOwned, MakesTable, ShowsTable, SomeFound};

use crate::records::TableRecords;
use mg_base::TxState;
use mg_image::Entry;
use mg_layout::{Standing, TableStand};
use mg_model::CATALOG;
use mg_reading::{Found, Image, shown};
use mg_value::{Row, Value};

/// Whether bytes are the letter of a table's row and the table's name.
fn is_table_key(bytes: &[u8], name: &[u8]) -> bool
    ensures { IsTrue result ↔ (bytes.now ≡ 84 ∷ name.now) }
{
    match bytes.split_first() {
        None => false,
        Some((letter, rest)) => *letter == b'T' && rest == name,
    }
}

/// Whether a row of the catalog is that of a table.
fn is_row_of(row: &Row, name: &[u8]) -> bool
    ensures { IsTrue result ↔ (row_key row.now ≡ table_key name.now) }
{
    match row.as_slice().first() {
        Some(Value::Text(text)) => is_table_key(text.as_slice(), name),
        Some(Value::Int(_)) => false,
        Some(Value::Null) => false,
        None => false,
    }
}

/// Whether a record of the catalog shows a table's row.
fn shows_table(image: &Image, name: &[u8], entries: &[Entry]) -> bool
    ensures { IsTrue result ↔ ShowsTable image.now name.now entries.now }
{
    match shown(image, entries) {
        Some(row) => is_row_of(row, name),
        None => false,
    }
}

/// Whether a committed row of the catalog names a table.
fn is_named(image: &Image, catalog: &[Found], name: &[u8]) -> bool
    ensures { IsTrue result ↔ SomeFound (ShowsTable image.now name.now) catalog.now }
{
    let mut rest = catalog;
    while let Some((found, later)) = rest.split_first() {
        if shows_table(image, name, &found.entries) {
            return true;
        }
        rest = later;
    }
    false
}

/// Whether a transaction is in limbo.
fn is_in_limbo(image: &Image, t: u32) -> bool
    ensures { IsTrue result ↔ (state_at image.now.size (pages_in image.now) t ≡ Limbo) }
{
    match image.state(t) {
        TxState::Limbo => true,
        TxState::Active => false,
        TxState::Dead => false,
        TxState::Committed => false,
    }
}

/// Whether a transaction is dead.
fn is_dead(image: &Image, t: u32) -> bool
    ensures { IsTrue result ↔ (state_at image.now.size (pages_in image.now) t ≡ Dead) }
{
    match image.state(t) {
        TxState::Dead => true,
        TxState::Active => false,
        TxState::Limbo => false,
        TxState::Committed => false,
    }
}

/// Whether a version of the catalog is a row of a table, by a transaction in limbo.
fn is_making(image: &Image, t: u32, name: &[u8], entry: &Entry) -> bool
    ensures { IsTrue result ↔ IsMaking image.now t name.now entry.now }
{
    is_in_limbo(image, entry.version.tx.0)
        && entry.version.tx.0 == t
        && !entry.version.deleted
        && is_row_of(&entry.row, name)
}

/// Whether the newest version of a record of the catalog is one.
fn makes_table(image: &Image, t: u32, name: &[u8], entries: &[Entry]) -> bool
    ensures { IsTrue result ↔ MakesTable image.now t name.now entries.now }
{
    match entries.split_first() {
        None => false,
        Some((newest, _)) => is_making(image, t, name, newest),
    }
}

/// Whether a transaction in limbo has made a table.
fn has_made(image: &Image, catalog: &[Found], t: u32, name: &[u8]) -> bool
    ensures { IsTrue result ↔ SomeFound (MakesTable image.now t name.now) catalog.now }
{
    let mut rest = catalog;
    while let Some((found, later)) = rest.split_first() {
        if makes_table(image, t, name, &found.entries) {
            return true;
        }
        rest = later;
    }
    false
}

/// Whether a name is that of the catalog.
fn is_catalog(name: &[u8]) -> bool
    ensures { IsTrue result ↔ (name.now ≡ catalog_name) }
{
    name == CATALOG
}

/// Whether a version may stand in a table of a name.
fn is_own(image: &Image, catalog: &[Found], name: &[u8], entry: &Entry) -> bool
    ensures { IsTrue result ↔ IsOwn image.now catalog.now name.now entry.now }
{
    let writer = entry.version.tx.0;
    is_catalog(name)
        || is_named(image, catalog, name)
        || is_dead(image, writer)
        || has_made(image, catalog, writer, name)
}

/// Whether each of these versions may.
fn are_own(image: &Image, catalog: &[Found], name: &[u8], entries: &[Entry]) -> bool
    ensures { IsTrue result ↔ Each (IsOwn image.now catalog.now name.now) entries.now }
{
    let mut rest = entries;
    while let Some((entry, older)) = rest.split_first() {
        if !is_own(image, catalog, name, entry) {
            return false;
        }
        rest = older;
    }
    true
}

/// Whether each version of these records may.
fn is_owned(image: &Image, catalog: &[Found], name: &[u8], found: &[Found]) -> bool
    ensures { IsTrue result
        ↔ EachFound (Each (IsOwn image.now catalog.now name.now)) found.now }
{
    let mut rest = found;
    while let Some((first, later)) = rest.split_first() {
        if !are_own(image, catalog, name, &first.entries) {
            return false;
        }
        rest = later;
    }
    true
}

/// Whether each version of these tables may. It is false where there is not one list for each table.
fn are_owned(
    image: &Image,
    catalog: &[Found],
    stands: &[TableStand],
    records: &[TableRecords],
) -> bool
    ensures { IsTrue result ↔ EachTable (IsOwned image.now catalog.now) (stands_in stands.now)
        (founds_in records.now) }
{
    let mut rest = stands;
    let mut left = records;
    while let Some((stand, later)) = rest.split_first() {
        let Some((table, others)) = left.split_first() else {
            return false;
        };
        if !is_owned(image, catalog, stand.table.name.as_slice(), &table.found) {
            return false;
        }
        rest = later;
        left = others;
    }
    left.is_empty()
}

/// Whether each table that no committed row of the catalog names has versions of those transactions
/// alone that have made it, and of dead ones. It is false where there is not one list for each
/// table.
pub fn have_own_tables(image: &Image, standing: &Standing, records: &[TableRecords]) -> bool
    ensures { IsTrue result ↔ AreOwned image.now (stands_of (layout_in standing.now))
        (founds_in records.now) }
{
    let Some((catalog, tables)) = records.split_first() else {
        return false;
    };
    let stand = &standing.catalog;
    is_owned(
        image,
        &catalog.found,
        stand.table.name.as_slice(),
        &catalog.found,
    ) && are_owned(image, &catalog.found, &standing.tables, tables)
}
