//! The indexes of a table.

ghost use Rattle.std.specs.Prelude.{◌≡◌, ◌<◌, ◌^◌, [], ◌++◌, OnOk, length};
ghost use Rattle.mg_value.specs.Names.{IsName};
ghost use Rattle.mg_model.specs.Catalog.{index_key, said_a, said_b};
ghost use Rattle.mg_model.specs.CatalogRules.{IsCatalog};
ghost use Rattle.mg_catalog.specs.ByKey.{by_key};
ghost use Rattle.mg_catalog.specs.TableIndexes.{index_said, indexes_among, is_index_of, with_index};

use crate::find::find_named;
use crate::spelling::{name_of, number_at};
use mg_base::{Bytes, Memory, PageNo};
use mg_model::Index;
use mg_value::{Name, Row};

/// Whether the index of a name is one of a table.
fn is_of_table(rows: &[Row], name: &[u8], table: &[u8]) -> bool
    ensures { result ≡ is_index_of table.now (by_key rows.now (index_key name.now)) }
{
    match find_named(rows, b'I', name) {
        Some(row) => name_of(row) == table,
        None => false,
    }
}

/// How many of these names are those of indexes of a table.
pub(crate) fn count_indexes(rows: &[Row], names: &[Bytes], table: &[u8]) -> u64
    ensures { result ≡ length (indexes_among (by_key rows.now) table.now names.now) }
{
    let mut count = 0;
    let mut rest = names;
    while let Some((name, later)) = rest.split_first() {
        if is_of_table(rows, name.as_slice(), table) {
            count += 1;
        }
        rest = later;
    }
    count
}

/// The index that a row says.
fn index_of(name: &[u8], row: &Row) -> Index
    requires named { IsName name.now }
    requires column { said_b row.now < 2 ^ 16 }
    requires root { said_a row.now < 2 ^ 32 }
    ensures { result ≡ index_said name.now row.now }
{
    Index {
        name: Name::new(name).unwrap(),
        column: number_at(row, 3) as u16,
        root: PageNo(number_at(row, 2) as u32),
    }
}

/// Adds the index of a name, if it is one of a table.
fn add_index(
    indexes: &mut Vec<Index>,
    rows: &[Row],
    name: &[u8],
    table: &[u8],
) -> Result<(), Memory>
    requires { IsCatalog (by_key rows.now) }
    ensures { OnOk result (indexes.new.items ≡ indexes.old.items
        ++ with_index table.now name.now (by_key rows.now (index_key name.now)) []) }
{
    let Some(row) = find_named(rows, b'I', name) else {
        return Ok(());
    };
    if name_of(row) != table {
        return Ok(());
    }
    indexes.push(index_of(name, row))?;
    Ok(())
}

/// Adds those of a table among the indexes of these names.
pub(crate) fn add_indexes(
    indexes: &mut Vec<Index>,
    rows: &[Row],
    names: &[Bytes],
    table: &[u8],
) -> Result<(), Memory>
    requires { IsCatalog (by_key rows.now) }
    ensures { OnOk result (indexes.new.items ≡ indexes.old.items
        ++ indexes_among (by_key rows.now) table.now names.now) }
{
    let mut rest = names;
    while let Some((name, later)) = rest.split_first() {
        add_index(indexes, rows, name.as_slice(), table)?;
        rest = later;
    }
    Ok(())
}
