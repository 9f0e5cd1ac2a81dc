//! The columns of a table by their names.

ghost use Rattle.std.specs.Prelude.{◌≡◌, ◌≤◌, ◌<◌, IfOk, IfSome, length, map};
ghost use Rattle.std.specs.List.{list_any};
ghost use Rattle.mg_value.specs.declared.shape.TheConstants.{MOST_COLUMNS};
ghost use Rattle.mg_model.specs.Changes.{same_name as same_name_test};
ghost use Rattle.mg_plan.specs.Names.{place_of as place_of_name, is_column as is_column_test, place_or_0 as place_or_0_of, places_from, has_twice as has_twice_test};

use mg_base::Memory;
use mg_value::{Column, Name};
use std::alloc::Global;

/// Tells whether two names are the same.
pub(crate) fn same_name(a: &[u8], b: &[u8]) -> bool
    ensures { result ≡ same_name_test a.now b.now }
{
    a == b
}

/// The place of the column with a name.
pub(crate) fn place_of(columns: &[Column], name: &Name) -> Option<usize>
    ensures place { result ≡ place_of_name columns.now name.now }
    ensures within { IfSome result (λ place. place < length columns.now) }
{
    for (place, column) in columns.iter().enumerate() {
        if same_name(column.name.as_slice(), name.as_slice()) {
            return Some(place);
        }
    }
    None
}

/// Tells whether there is a column with a name.
pub(crate) fn is_column(columns: &[Column], name: &Name) -> bool
    ensures { result ≡ is_column_test columns.now name.now }
{
    place_of(columns, name).is_some()
}

/// The place of the column with a name, 0 where there is none.
pub(crate) fn place_or_0(columns: &[Column], name: &Name) -> u16
    requires { length columns.now ≤ MOST_COLUMNS }
    ensures { result ≡ place_or_0_of columns.now name.now }
{
    match place_of(columns, name) {
        Some(place) => place as u16,
        None => 0,
    }
}

/// The places of the columns with these names.
pub(crate) fn places_of(
    alloc: Global,
    columns: &[Column],
    names: &[Name],
) -> Result<Vec<u16>, Memory>
    requires { length columns.now ≤ MOST_COLUMNS }
    ensures { IfOk result (λ places. places.items ≡ map (place_or_0_of columns.now) names.now) }
{
    let mut places = Vec::new(alloc);
    for name in names {
        places.push(place_or_0(columns, name))?;
    }
    Ok(places)
}

/// The places of all columns.
pub(crate) fn all_places(alloc: Global, columns: &[Column]) -> Result<Vec<u16>, Memory>
    requires { length columns.now ≤ MOST_COLUMNS }
    ensures { IfOk result (λ places. places.items ≡ places_from 0 columns.now) }
{
    let mut places = Vec::new(alloc);
    for (place, _) in columns.iter().enumerate() {
        places.push(place as u16)?;
    }
    Ok(places)
}

fn has_name(names: &[Name], name: &Name) -> bool
    ensures { result ≡ list_any (λ other. same_name_test other name.now) names.now }
{
    names
        .iter()
        .any(|other| same_name(other.as_slice(), name.as_slice()))
}

/// Tells whether a name stands among these twice.
pub(crate) fn has_twice(names: &[Name]) -> bool
    ensures { result ≡ has_twice_test names.now }
{
    let mut rest = names;
    while let Some((name, later)) = rest.split_first() {
        if has_name(later, name) {
            return true;
        }
        rest = later;
    }
    false
}
