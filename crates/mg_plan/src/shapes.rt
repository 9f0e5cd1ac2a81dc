//! The shape of a new table.

ghost use Rattle.std.specs.Prelude.{◌≡◌, ◌≤◌, ◌<◌, ◌^◌, All, IfOk, OnOk, length, map, count_by};
ghost use Rattle.mg_value.specs.Names.{IsName};
ghost use Rattle.mg_value.specs.declared.shape.TheConstants.{MOST_COLUMNS};
ghost use Rattle.mg_value.specs.Rows.{row_len_of};
ghost use Rattle.mg_plan.specs.Shapes.{column_of as column_defined, key_from, key_len as key_len_of, shape_of as shape_defined};

use mg_base::Memory;
use mg_sortkey::key_most;
use mg_statements::Def;
use mg_value::{Column, Columns, Shape, columns_len};
use std::alloc::Global;

/// The column that is defined so. Its name is known to be one once its bytes are asked for, which
/// costs nothing.
fn column_of(d: &Def) -> Column
    ensures is { result ≡ column_defined d.now }
    ensures named { IsName d.now.name }
{
    d.name.as_slice();
    Column {
        name: d.name,
        kind: d.kind,
        not_null: d.not_null || d.key,
        since: 1,
    }
}

fn columns_of(alloc: Global, defs: &[Def]) -> Result<Vec<Column>, Memory>
    ensures are { IfOk result (λ columns. columns.items ≡ map column_defined defs.now) }
    ensures named { OnOk result (All (λ d. IsName d.name) defs.now) }
{
    let mut columns = Vec::new(alloc);
    for d in defs {
        columns.push(column_of(d))?;
    }
    Ok(columns)
}

/// The place of the primary key's column, 0 where there is none.
fn key_of(defs: &[Def]) -> u16
    requires { length defs.now ≤ MOST_COLUMNS }
    ensures { result ≡ key_from 0 defs.now }
{
    for (place, d) in defs.iter().enumerate() {
        if d.key {
            return place as u16;
        }
    }
    0
}

/// The shape of a table with these columns, of which one is the primary key; that one is never NULL.
///
/// # Errors
///
/// `Memory` only.
pub fn shape_of(alloc: Global, defs: &[Def]) -> Result<Shape, Memory>
    requires { length defs.now ≤ MOST_COLUMNS }
    ensures is { IfOk result (λ shape. shape ≡ shape_defined defs.now) }
    ensures named { OnOk result (All (λ d. IsName d.name) defs.now) }
{
    Ok(Shape {
        columns: Columns::new(columns_of(alloc, defs)?),
        key: key_of(defs),
    })
}

/// How many of these are primary keys.
pub(crate) fn count_keys(defs: &[Def]) -> usize
    ensures { result ≡ count_by (λ d. d.key) defs.now }
{
    defs.iter().filter(|d| d.key).count()
}

/// How many bytes a row of these columns has.
pub(crate) fn row_len(alloc: Global, defs: &[Def]) -> Result<u32, Memory>
    requires { length defs.now ≤ MOST_COLUMNS }
    ensures { IfOk result (λ len. len ≡ row_len_of (map column_defined defs.now)) }
{
    let columns = columns_of(alloc, defs)?;
    Ok(columns_len(&columns) as u32)
}

/// How many bytes a key of the primary key's column has at most, 0 where there is none.
pub(crate) fn key_len(defs: &[Def]) -> u32
    ensures { result ≡ key_len_of defs.now }
{
    let mut rest = defs;
    while let Some((d, later)) = rest.split_first() {
        if d.key {
            return key_most(d.kind);
        }
        rest = later;
    }
    0
}
