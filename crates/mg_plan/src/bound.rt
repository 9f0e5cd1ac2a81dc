//! Bound statements.

ghost use Rattle.std.specs.Prelude.{◌≡◌, ◌≤◌, OnOk, length};
ghost use Rattle.std.specs.Option.{option_copied};
ghost use Rattle.mg_value.specs.declared.shape.TheConstants.{MOST_COLUMNS};
ghost use Rattle.mg_statements.specs.Plain.{plain_of};
ghost use Rattle.mg_plan.specs.Refusing.{Binds, HasFewColumns, IsBoundAs, Tells, TestsPart, columns_in, key_in, lengths_refused, names_refused, types_refused};
ghost use Rattle.mg_plan.specs.Statements.{count_defined as count_defined_in};

use crate::PlanFault;
use crate::names::has_twice;
use crate::statements::{
    bind_statement, columns_listed, count_defined, do_counts_match, has_one_key, is_all_known,
    is_typed, new_key_len, new_row_len, places_in, sets_key,
};
use mg_model::Table;
use mg_statements::Statement;
use mg_value::{Column, MOST_COLUMNS};
use std::alloc::Global;

/// A statement whose expressions have columns in place of names. The values of an INSERT name none.
#[derive(Debug, Drop)]
pub struct Bound {
    pub statement: Statement,
    /// The places, in the table, of the columns that an INSERT gives, in the order of its values (all
    /// columns, where it lists none), that an UPDATE sets, or by which a SELECT is ordered.
    pub places: Vec<u16>,
}

/// Lets a bound statement go; see `mg_statements::let_go`.
pub fn let_go(bound: Bound) {
    let Bound {
        statement,
        places: _places,
    } = bound;
    mg_statements::let_go(statement);
}

/// Binds a statement to its table, for pages of `size` bytes. `t` is None for a statement that has
/// no table, as CREATE TABLE; one that has a table finds no column then.
///
/// # Errors
///
/// The first refusal of the statement that depends on no row, in the order of `PlanFault`; or
/// `Memory`.
pub fn bind(alloc: Global, s: &Statement, t: Option<&Table>, size: u32) -> Result<Bound, PlanFault>
    requires few { HasFewColumns (option_copied t) }
    ensures { Binds (columns_in (option_copied t.entry)) (key_in (option_copied t.entry)) size
        (plain_of s.now) result }
{
    match t {
        Some(table) => bind_in(
            alloc,
            s,
            table.shape.columns.as_slice(),
            table.shape.key,
            size,
        ),
        None => bind_in(alloc, s, &[], 0, size),
    }
}

/// Binds a statement to a table with these columns and this place of the primary key.
fn bind_in(
    alloc: Global,
    s: &Statement,
    columns: &[Column],
    key: u16,
    size: u32,
) -> Result<Bound, PlanFault>
    requires few { length columns.now ≤ MOST_COLUMNS }
    ensures { Binds columns.now key size (plain_of s.now) result }
{
    test_names(alloc, columns, key, s)?;
    let places = places_in(alloc, columns, s)?;
    let statement = bind_statement(alloc, columns, s)?;
    let bound = Bound { statement, places };
    match test_bound(alloc, columns, size, s, &bound) {
        Ok(()) => Ok(bound),
        Err(fault) => {
            let_go(bound);
            Err(fault)
        }
    }
}

/// Tests what a statement names, before it is bound.
fn test_names(alloc: Global, columns: &[Column], key: u16, s: &Statement) -> Result<(), PlanFault>
    ensures tests { TestsPart (names_refused columns.now key (plain_of s.now)) result }
    ensures few { OnOk result (count_defined_in (plain_of s.now) ≤ MOST_COLUMNS) }
{
    let listed = columns_listed(alloc, s)?;
    if has_twice(&listed) {
        return Err(PlanFault::ColumnExists);
    }
    if count_defined(s) > MOST_COLUMNS {
        return Err(PlanFault::TooMany {
            limit: MOST_COLUMNS as u32,
        });
    }
    if !is_all_known(columns, s) {
        return Err(PlanFault::NoColumn);
    }
    if !has_one_key(s) {
        return Err(PlanFault::OneKey);
    }
    if !do_counts_match(columns, s) {
        return Err(PlanFault::CountMismatch);
    }
    if sets_key(columns, key, s) {
        return Err(PlanFault::KeyChange);
    }
    Ok(())
}

/// Tests the types of a bound statement, and the lengths of a new table.
fn test_bound(
    alloc: Global,
    columns: &[Column],
    size: u32,
    s: &Statement,
    bound: &Bound,
) -> Result<(), PlanFault>
    requires few { count_defined_in (plain_of s.now) ≤ MOST_COLUMNS }
    requires bound { IsBoundAs columns.now (plain_of s.now) bound.now }
    ensures { Tells (types_refused columns.now (plain_of s.now) (lengths_refused size (plain_of s.now))) result }
{
    if !is_typed(columns, &bound.places, &bound.statement) {
        return Err(PlanFault::TypeMismatch);
    }
    let len = new_row_len(alloc, s)?;
    if len > size / 2 {
        return Err(PlanFault::RowTooLong {
            len,
            limit: size / 2,
        });
    }
    let len = new_key_len(s);
    if len > size / 8 {
        return Err(PlanFault::KeyTooLong {
            len,
            limit: size / 8,
        });
    }
    Ok(())
}
