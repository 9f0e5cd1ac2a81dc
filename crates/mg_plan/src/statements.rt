//! What is tested of a statement, and the statement with its expressions bound.

ghost use Rattle.std.specs.Prelude.{◌≡◌, ◌≤◌, ◌&&◌, [], IfOk, length, map, slice_get};
ghost use Rattle.std.specs.List.{list_all, list_any};
ghost use Rattle.mg_value.specs.declared.shape.TheConstants.{MOST_COLUMNS};
ghost use Rattle.mg_expr.specs.Trees.{tree_of};
ghost use Rattle.mg_expr.specs.Typing.{fits_value as fits_value_test, sort_of};
ghost use Rattle.mg_statements.specs.Plain.{Insert as InsertPlain, Update as UpdatePlain, Totals as TotalsPlain, plain_of, tree_in, trees_in, names_in, assign_of, total_of};
ghost use Rattle.mg_plan.specs.Binding.{is_known, bound as bound_tree, is_filter_known as is_filter_known_test};
ghost use Rattle.mg_plan.specs.Names.{place_of as place_of_name, place_or_0 as place_or_0_of, is_column as is_column_test};
ghost use Rattle.mg_plan.specs.Types.{sort_if, fit_places as fit_places_test, fits_column as fits_column_test, is_filter_truth as is_filter_truth_test};
ghost use Rattle.mg_plan.specs.Statements.{columns_listed as columns_listed_of, count_defined as count_defined_of, is_sort_known as is_sort_known_test, is_total_known as is_total_known_test, are_values_known as are_values_known_test, is_all_known as is_all_known_test, has_one_key as has_one_key_test, do_counts_match as do_counts_match_test, is_place, sets_key as sets_key_test, bound_plain, bound_total, bound_values, sort_places as sort_places_of, places_in as places_in_of, is_total_typed as is_total_typed_test, are_values_typed as are_values_typed_test, is_typed as is_typed_test, new_row_len as new_row_len_of, new_key_len as new_key_len_of};

use crate::binding::{bind_each, bind_expr, bind_filter};
use crate::knowing::knows;
use crate::names::{all_places, is_column, place_of, place_or_0, places_of};
use crate::shapes::{count_keys, key_len, row_len};
use crate::typing::{ValueType, fits_integer, fits_kind, fits_truth, fits_value, type_of};
use mg_base::Memory;
use mg_expr::Expr;
use mg_statements::{Agg, Assign, Def, Sorted, Statement};
use mg_value::{Column, Name};
use std::alloc::Global;

// ---- the columns that it names

fn names_defined(alloc: Global, defs: &[Def]) -> Result<Vec<Name>, Memory>
    ensures { IfOk result (λ names. names.items ≡ map (λ d. d.name) defs.now) }
{
    let mut names = Vec::new(alloc);
    for d in defs {
        names.push(d.name)?;
    }
    Ok(names)
}

fn names_set(alloc: Global, sets: &[Assign]) -> Result<Vec<Name>, Memory>
    ensures { IfOk result (λ names. names.items ≡ map (λ set. set.0) (map assign_of sets.now)) }
{
    let mut names = Vec::new(alloc);
    for set in sets {
        names.push(set.column)?;
    }
    Ok(names)
}

fn copy_names(alloc: Global, names: &[Name]) -> Result<Vec<Name>, Memory>
    ensures { IfOk result (λ copied. copied.items ≡ names.now) }
{
    let mut copied = Vec::new(alloc);
    for name in names {
        copied.push(*name)?;
    }
    Ok(copied)
}

/// The columns that a statement names in a list, or in the shape of a new table.
pub(crate) fn columns_listed(alloc: Global, s: &Statement) -> Result<Vec<Name>, Memory>
    ensures { IfOk result (λ names. names.items ≡ columns_listed_of (plain_of s.now)) }
{
    match s {
        Statement::Table { name: _, columns } => names_defined(alloc, columns),
        Statement::Insert {
            table: _,
            columns,
            values: _,
        } => match columns {
            Some(names) => copy_names(alloc, names),
            None => Ok(Vec::new(alloc)),
        },
        Statement::Update {
            table: _,
            sets,
            filter: _,
        } => names_set(alloc, sets),
        _ => Ok(Vec::new(alloc)),
    }
}

/// How many columns a new table has.
pub(crate) fn count_defined(s: &Statement) -> usize
    ensures { result ≡ count_defined_of (plain_of s.now) }
{
    match s {
        Statement::Table { name: _, columns } => columns.len(),
        _ => 0,
    }
}

fn is_sort_known(columns: &[Column], sorted: &Option<Sorted>) -> bool
    ensures { result ≡ is_sort_known_test columns.now sorted.now }
{
    match sorted {
        Some(sorted) => is_column(columns, &sorted.column),
        None => true,
    }
}

fn is_total_known(columns: &[Column], total: &Agg) -> bool
    ensures { result ≡ is_total_known_test columns.now (total_of total.now) }
{
    match total {
        Agg::Count => true,
        Agg::Sum(e) => knows(columns, e),
    }
}

fn is_filter_known(columns: &[Column], filter: &Option<Expr>) -> bool
    ensures { result ≡ is_filter_known_test columns.now (tree_in filter.now) }
{
    match filter {
        Some(e) => knows(columns, e),
        None => true,
    }
}

fn are_columns(columns: &[Column], names: &[Name]) -> bool
    ensures { result ≡ list_all (is_column_test columns.now) names.now }
{
    names.iter().all(|name| is_column(columns, name))
}

fn are_known(columns: &[Column], values: &[Expr]) -> bool
    ensures { result ≡ list_all (λ t. is_known t columns.now) (map tree_of values.now) }
{
    let mut rest = values;
    while let Some((value, later)) = rest.split_first() {
        if !knows(columns, value) {
            return false;
        }
        rest = later;
    }
    true
}

fn are_totals_known(columns: &[Column], totals: &[Agg]) -> bool
    ensures { result ≡ list_all (is_total_known_test columns.now) (map total_of totals.now) }
{
    let mut rest = totals;
    while let Some((total, later)) = rest.split_first() {
        if !is_total_known(columns, total) {
            return false;
        }
        rest = later;
    }
    true
}

fn is_set_known(columns: &[Column], set: &Assign) -> bool
    ensures { result ≡ (is_column_test columns.now (assign_of set.now).0
        && is_known (assign_of set.now).1 columns.now) }
{
    is_column(columns, &set.column) && knows(columns, &set.value)
}

fn are_sets_known(columns: &[Column], sets: &[Assign]) -> bool
    ensures { result ≡ list_all (λ set. is_column_test columns.now set.0 && is_known set.1 columns.now)
        (map assign_of sets.now) }
{
    let mut rest = sets;
    while let Some((set, later)) = rest.split_first() {
        if !is_set_known(columns, set) {
            return false;
        }
        rest = later;
    }
    true
}

fn are_values_known(columns: &[Column], values: &Option<Vec<Expr>>) -> bool
    ensures { result ≡ are_values_known_test columns.now (trees_in values.now) }
{
    match values {
        Some(values) => are_known(columns, values),
        None => true,
    }
}

/// Tells whether each name of a column in a statement is one of the table's. The values of an INSERT
/// name no column.
pub(crate) fn is_all_known(columns: &[Column], s: &Statement) -> bool
    ensures { result ≡ is_all_known_test columns.now (plain_of s.now) }
{
    match s {
        Statement::Insert {
            table: _,
            columns: listed,
            values,
        } => match listed {
            Some(names) => are_columns(columns, names) && are_known(&[], values),
            None => are_known(&[], values),
        },
        Statement::Update {
            table: _,
            sets,
            filter,
        } => are_sets_known(columns, sets) && is_filter_known(columns, filter),
        Statement::Delete { table: _, filter } => is_filter_known(columns, filter),
        Statement::Totals {
            table: _,
            aggs,
            filter,
        } => are_totals_known(columns, aggs) && is_filter_known(columns, filter),
        Statement::Select {
            table: _,
            values,
            filter,
            sorted,
        } => {
            are_values_known(columns, values)
                && is_filter_known(columns, filter)
                && is_sort_known(columns, sorted)
        }
        _ => true,
    }
}

// ---- keys and counts

/// Tells whether a new table has exactly one primary key.
pub(crate) fn has_one_key(s: &Statement) -> bool
    ensures { result ≡ has_one_key_test (plain_of s.now) }
{
    match s {
        Statement::Table { name: _, columns } => count_keys(columns) == 1,
        _ => true,
    }
}

/// Tells whether an INSERT has a value for each column that it lists, or for each of the table's.
pub(crate) fn do_counts_match(columns: &[Column], s: &Statement) -> bool
    ensures { result ≡ do_counts_match_test columns.now (plain_of s.now) }
{
    match s {
        Statement::Insert {
            table: _,
            columns: listed,
            values,
        } => match listed {
            Some(names) => values.len() == names.len(),
            None => values.len() == columns.len(),
        },
        _ => true,
    }
}

fn is_key(columns: &[Column], key: u16, name: &Name) -> bool
    ensures { result ≡ is_place key (place_of_name columns.now name.now) }
{
    match place_of(columns, name) {
        Some(place) => place == key as usize,
        None => false,
    }
}

fn do_sets_key(columns: &[Column], key: u16, sets: &[Assign]) -> bool
    ensures { result ≡ list_any (λ set. is_place key (place_of_name columns.now set.0))
        (map assign_of sets.now) }
{
    let mut rest = sets;
    while let Some((set, later)) = rest.split_first() {
        if is_key(columns, key, &set.column) {
            return true;
        }
        rest = later;
    }
    false
}

/// Tells whether an UPDATE sets the primary key's column.
pub(crate) fn sets_key(columns: &[Column], key: u16, s: &Statement) -> bool
    ensures { result ≡ sets_key_test columns.now key (plain_of s.now) }
{
    match s {
        Statement::Update {
            table: _,
            sets,
            filter: _,
        } => do_sets_key(columns, key, sets),
        _ => false,
    }
}

// ---- the statement with its expressions bound, and the places of the columns that it lists

fn copy_defs(alloc: Global, defs: &[Def]) -> Result<Vec<Def>, Memory>
    ensures { IfOk result (λ copied. copied.items ≡ defs.now) }
{
    let mut copied = Vec::new(alloc);
    for d in defs {
        copied.push(*d)?;
    }
    Ok(copied)
}

fn copy_listed(alloc: Global, names: &Option<Vec<Name>>) -> Result<Option<Vec<Name>>, Memory>
    ensures { IfOk result (λ copied. names_in copied ≡ names_in names.now) }
{
    match names {
        Some(names) => Ok(Some(copy_names(alloc, names)?)),
        None => Ok(None),
    }
}

fn copy_values(alloc: Global, values: &[Expr]) -> Result<Vec<Expr>, Memory>
    ensures { IfOk result (λ copied. map tree_of copied.items ≡ map tree_of values.now) }
{
    let mut copied = Vec::new(alloc);
    for value in values {
        copied.push(value.copy(alloc)?)?;
    }
    Ok(copied)
}

fn bind_sets(alloc: Global, columns: &[Column], sets: &[Assign]) -> Result<Vec<Assign>, Memory>
    requires { length columns.now ≤ MOST_COLUMNS }
    ensures { IfOk result (λ bound. map assign_of bound.items
        ≡ map (λ set. (set.0, bound_tree set.1 columns.now)) (map assign_of sets.now)) }
{
    let mut bound = Vec::new(alloc);
    for set in sets {
        bound.push(Assign {
            column: set.column,
            value: bind_expr(alloc, columns, &set.value)?,
        })?;
    }
    Ok(bound)
}

fn bind_total(alloc: Global, columns: &[Column], total: &Agg) -> Result<Agg, Memory>
    requires { length columns.now ≤ MOST_COLUMNS }
    ensures { IfOk result (λ bound. total_of bound ≡ bound_total columns.now (total_of total.now)) }
{
    match total {
        Agg::Count => Ok(Agg::Count),
        Agg::Sum(e) => Ok(Agg::Sum(bind_expr(alloc, columns, e)?)),
    }
}

fn bind_totals(alloc: Global, columns: &[Column], totals: &[Agg]) -> Result<Vec<Agg>, Memory>
    requires { length columns.now ≤ MOST_COLUMNS }
    ensures { IfOk result (λ bound. map total_of bound.items
        ≡ map (bound_total columns.now) (map total_of totals.now)) }
{
    let mut bound = Vec::new(alloc);
    for total in totals {
        bound.push(bind_total(alloc, columns, total)?)?;
    }
    Ok(bound)
}

fn bind_values(
    alloc: Global,
    columns: &[Column],
    values: &Option<Vec<Expr>>,
) -> Result<Option<Vec<Expr>>, Memory>
    requires { length columns.now ≤ MOST_COLUMNS }
    ensures { IfOk result (λ bound. trees_in bound ≡ bound_values columns.now (trees_in values.now)) }
{
    match values {
        Some(values) => Ok(Some(bind_each(alloc, columns, values)?)),
        None => Ok(None),
    }
}

/// A new row's statement: its values name no column.
fn bind_insert(
    alloc: Global,
    table: &Name,
    listed: &Option<Vec<Name>>,
    values: &[Expr],
) -> Result<Statement, Memory>
    ensures { IfOk result (λ bound. plain_of bound
        ≡ InsertPlain table.now (names_in listed.now) (map tree_of values.now)) }
{
    let listed = copy_listed(alloc, listed)?;
    Ok(Statement::Insert {
        table: *table,
        columns: listed,
        values: copy_values(alloc, values)?,
    })
}

/// An UPDATE, with columns in place of names in its new values and its filter.
fn bind_update(
    alloc: Global,
    columns: &[Column],
    table: &Name,
    sets: &[Assign],
    filter: &Option<Expr>,
) -> Result<Statement, Memory>
    requires { length columns.now ≤ MOST_COLUMNS }
    ensures { IfOk result (λ bound. plain_of bound ≡ bound_plain columns.now
        (UpdatePlain table.now (map assign_of sets.now) (tree_in filter.now))) }
{
    let sets = bind_sets(alloc, columns, sets)?;
    Ok(Statement::Update {
        table: *table,
        sets,
        filter: bind_filter(alloc, columns, filter)?,
    })
}

/// A SELECT of totals, with columns in place of names in them and in its filter.
fn bind_select_totals(
    alloc: Global,
    columns: &[Column],
    table: &Name,
    aggs: &[Agg],
    filter: &Option<Expr>,
) -> Result<Statement, Memory>
    requires { length columns.now ≤ MOST_COLUMNS }
    ensures { IfOk result (λ bound. plain_of bound ≡ bound_plain columns.now
        (TotalsPlain table.now (map total_of aggs.now) (tree_in filter.now))) }
{
    let aggs = bind_totals(alloc, columns, aggs)?;
    Ok(Statement::Totals {
        table: *table,
        aggs,
        filter: bind_filter(alloc, columns, filter)?,
    })
}

/// The statement with columns in place of names in its expressions.
pub(crate) fn bind_statement(
    alloc: Global,
    columns: &[Column],
    s: &Statement,
) -> Result<Statement, Memory>
    requires { length columns.now ≤ MOST_COLUMNS }
    ensures { IfOk result (λ bound. plain_of bound ≡ bound_plain columns.now (plain_of s.now)) }
{
    match s {
        Statement::SetTransaction {
            read_only,
            wait,
            snapshot,
        } => Ok(Statement::SetTransaction {
            read_only: *read_only,
            wait: *wait,
            snapshot: *snapshot,
        }),
        Statement::Commit => Ok(Statement::Commit),
        Statement::Rollback => Ok(Statement::Rollback),
        Statement::RollbackTo { name } => Ok(Statement::RollbackTo { name: *name }),
        Statement::Savepoint { name } => Ok(Statement::Savepoint { name: *name }),
        Statement::Table {
            name,
            columns: defs,
        } => Ok(Statement::Table {
            name: *name,
            columns: copy_defs(alloc, defs)?,
        }),
        Statement::Insert {
            table,
            columns: listed,
            values,
        } => bind_insert(alloc, table, listed, values),
        Statement::Update {
            table,
            sets,
            filter,
        } => bind_update(alloc, columns, table, sets, filter),
        Statement::Delete { table, filter } => Ok(Statement::Delete {
            table: *table,
            filter: bind_filter(alloc, columns, filter)?,
        }),
        Statement::Totals {
            table,
            aggs,
            filter,
        } => bind_select_totals(alloc, columns, table, aggs, filter),
        Statement::Select {
            table,
            values,
            filter,
            sorted,
        } => {
            let values = bind_values(alloc, columns, values)?;
            Ok(Statement::Select {
                table: *table,
                values,
                filter: bind_filter(alloc, columns, filter)?,
                sorted: *sorted,
            })
        }
    }
}

fn sort_places(
    alloc: Global,
    columns: &[Column],
    sorted: &Option<Sorted>,
) -> Result<Vec<u16>, Memory>
    requires { length columns.now ≤ MOST_COLUMNS }
    ensures { IfOk result (λ places. places.items ≡ sort_places_of columns.now sorted.now) }
{
    let mut places = Vec::new(alloc);
    if let Some(sorted) = sorted {
        places.push(place_or_0(columns, &sorted.column))?;
    }
    Ok(places)
}

fn places_set(alloc: Global, columns: &[Column], sets: &[Assign]) -> Result<Vec<u16>, Memory>
    requires { length columns.now ≤ MOST_COLUMNS }
    ensures { IfOk result (λ places. places.items
        ≡ map (λ set. place_or_0_of columns.now set.0) (map assign_of sets.now)) }
{
    let mut places = Vec::new(alloc);
    for set in sets {
        places.push(place_or_0(columns, &set.column))?;
    }
    Ok(places)
}

/// The places of the columns that an INSERT gives, that an UPDATE sets, and by which a SELECT is
/// ordered.
pub(crate) fn places_in(
    alloc: Global,
    columns: &[Column],
    s: &Statement,
) -> Result<Vec<u16>, Memory>
    requires { length columns.now ≤ MOST_COLUMNS }
    ensures { IfOk result (λ places. places.items ≡ places_in_of columns.now (plain_of s.now)) }
{
    match s {
        Statement::Insert {
            table: _,
            columns: listed,
            values: _,
        } => match listed {
            Some(names) => places_of(alloc, columns, names),
            None => all_places(alloc, columns),
        },
        Statement::Update {
            table: _,
            sets,
            filter: _,
        } => places_set(alloc, columns, sets),
        Statement::Select {
            table: _,
            values: _,
            filter: _,
            sorted,
        } => sort_places(alloc, columns, sorted),
        _ => Ok(Vec::new(alloc)),
    }
}

// ---- types

fn fits_column(columns: &[Column], place: u16, of: Option<ValueType>) -> bool
    ensures { result ≡ fits_column_test (slice_get columns.now place) (sort_if of) }
{
    match columns.get(place as usize) {
        Some(column) => fits_kind(column.kind, of),
        None => false,
    }
}

fn do_values_fit(columns: &[Column], places: &[u16], values: &[Expr]) -> bool
    ensures { result ≡ fit_places_test columns.now places.now
        (map (λ t. sort_of t []) (map tree_of values.now)) }
{
    let mut places = places;
    let mut values = values;
    while let Some((value, later)) = values.split_first() {
        let Some((place, others)) = places.split_first() else {
            return false;
        };
        if !fits_column(columns, *place, type_of(&[], value)) {
            return false;
        }
        places = others;
        values = later;
    }
    places.is_empty()
}

fn do_sets_fit(columns: &[Column], places: &[u16], sets: &[Assign]) -> bool
    ensures { result ≡ fit_places_test columns.now places.now
        (map (λ set. sort_of set.1 columns.now) (map assign_of sets.now)) }
{
    let mut places = places;
    let mut sets = sets;
    while let Some((set, later)) = sets.split_first() {
        let Some((place, others)) = places.split_first() else {
            return false;
        };
        if !fits_column(columns, *place, type_of(columns, &set.value)) {
            return false;
        }
        places = others;
        sets = later;
    }
    places.is_empty()
}

fn is_filter_truth(columns: &[Column], filter: &Option<Expr>) -> bool
    ensures { result ≡ is_filter_truth_test columns.now (tree_in filter.now) }
{
    match filter {
        Some(e) => fits_truth(type_of(columns, e)),
        None => true,
    }
}

fn is_total_typed(columns: &[Column], total: &Agg) -> bool
    ensures { result ≡ is_total_typed_test columns.now (total_of total.now) }
{
    match total {
        Agg::Count => true,
        Agg::Sum(e) => fits_integer(type_of(columns, e)),
    }
}

fn are_totals_typed(columns: &[Column], totals: &[Agg]) -> bool
    ensures { result ≡ list_all (is_total_typed_test columns.now) (map total_of totals.now) }
{
    let mut rest = totals;
    while let Some((total, later)) = rest.split_first() {
        if !is_total_typed(columns, total) {
            return false;
        }
        rest = later;
    }
    true
}

fn are_typed(columns: &[Column], values: &[Expr]) -> bool
    ensures { result ≡ list_all (λ t. fits_value_test (sort_of t columns.now)) (map tree_of values.now) }
{
    let mut rest = values;
    while let Some((value, later)) = rest.split_first() {
        if !fits_value(type_of(columns, value)) {
            return false;
        }
        rest = later;
    }
    true
}

fn are_values_typed(columns: &[Column], values: &Option<Vec<Expr>>) -> bool
    ensures { result ≡ are_values_typed_test columns.now (trees_in values.now) }
{
    match values {
        Some(values) => are_typed(columns, values),
        None => true,
    }
}

/// Tells whether each expression of a bound statement has the type that is wanted.
pub(crate) fn is_typed(columns: &[Column], places: &[u16], s: &Statement) -> bool
    ensures { result ≡ is_typed_test columns.now places.now (plain_of s.now) }
{
    match s {
        Statement::Insert {
            table: _,
            columns: _,
            values,
        } => do_values_fit(columns, places, values),
        Statement::Update {
            table: _,
            sets,
            filter,
        } => do_sets_fit(columns, places, sets) && is_filter_truth(columns, filter),
        Statement::Delete { table: _, filter } => is_filter_truth(columns, filter),
        Statement::Totals {
            table: _,
            aggs,
            filter,
        } => are_totals_typed(columns, aggs) && is_filter_truth(columns, filter),
        Statement::Select {
            table: _,
            values,
            filter,
            sorted: _,
        } => are_values_typed(columns, values) && is_filter_truth(columns, filter),
        _ => true,
    }
}

// ---- the lengths of a new table

/// How many bytes a row of a new table has.
pub(crate) fn new_row_len(alloc: Global, s: &Statement) -> Result<u32, Memory>
    requires { count_defined_of (plain_of s.now) ≤ MOST_COLUMNS }
    ensures { IfOk result (λ len. len ≡ new_row_len_of (plain_of s.now)) }
{
    match s {
        Statement::Table { name: _, columns } => row_len(alloc, columns),
        _ => Ok(0),
    }
}

/// How many bytes a primary key of a new table has at most.
pub(crate) fn new_key_len(s: &Statement) -> u32
    ensures { result ≡ new_key_len_of (plain_of s.now) }
{
    match s {
        Statement::Table { name: _, columns } => key_len(columns),
        _ => 0,
    }
}
