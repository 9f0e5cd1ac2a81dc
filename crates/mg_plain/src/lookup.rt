//! How changes and steps are searched. The newest stands first.

ghost use Rattle.std.specs.Prelude.{◌≡◌, ◌<◌, ◌++◌, ◌∷◌, [], IfOk, IfSome, OnOk, length};
ghost use Rattle.std.specs.Option.{option_copied};
ghost use Rattle.std.specs.Ordering.{is_eq};
ghost use Rattle.mg_value.specs.Values.{value_cmp};
ghost use Rattle.mg_model.specs.Changes.{same_name as same_name_test, same_key as same_key_test, is_at as is_at_test};
ghost use Rattle.mg_model.specs.Machine.{changes_by, is_point as is_point_test};
ghost use Rattle.mg_plain.specs.TakenBack.{first_point};
ghost use Rattle.mg_model.specs.Answers.{changes_key as changes_key_test, changes_table as changes_table_test};
ghost use Rattle.mg_plain.specs.Lookups.{change_at, change_in};

use mg_base::Memory;
use mg_model::{Change, Deed, Point, Step};
use mg_value::{Value, order};
use std::alloc::Global;

/// Tells whether two names are the same.
pub fn same_name(a: &[u8], b: &[u8]) -> bool
    ensures { result ≡ same_name_test a.now b.now }
{
    a == b
}

/// Tells whether two keys are the same.
pub fn same_key(a: &Value, b: &Value) -> bool
    ensures { result ≡ same_key_test a.now b.now }
{
    order(a, b).is_eq()
}

/// Tells whether a change is of this key of this table.
pub fn is_at(change: &Change, table: &[u8], key: &Value) -> bool
    ensures { result ≡ is_at_test change.now table.now key.now }
{
    same_name(change.table.as_slice(), table) && same_key(&change.key, key)
}

/// The newest change of a key of a table.
pub fn newest_change<'a>(changes: &'a [Change], table: &[u8], key: &Value) -> Option<&'a Change>
    ensures { option_copied result ≡ change_at changes.now table.now key.now }
{
    for change in changes {
        if is_at(change, table, key) {
            return Some(change);
        }
    }
    None
}

/// Tells whether a deed changed this key of this table.
pub fn changes_key(deed: &Deed, table: &[u8], key: &Value) -> bool
    ensures { result ≡ changes_key_test table.now key.now deed.now }
{
    match deed {
        Deed::Changed(change) => is_at(change, table, key),
        Deed::Marked => false,
        Deed::Saved(_) => false,
    }
}

/// Tells whether a deed changed a row of this table.
pub fn changes_table(deed: &Deed, table: &[u8]) -> bool
    ensures { result ≡ changes_table_test table.now deed.now }
{
    match deed {
        Deed::Changed(change) => same_name(change.table.as_slice(), table),
        Deed::Marked => false,
        Deed::Saved(_) => false,
    }
}

/// The change that a deed made.
pub fn change_of(deed: &Deed) -> Option<&Change>
    ensures { option_copied result ≡ change_in deed.now }
{
    match deed {
        Deed::Changed(change) => Some(change),
        Deed::Marked => None,
        Deed::Saved(_) => None,
    }
}

/// The newest change of a key of a table among the steps of a transaction.
pub fn own_change<'a>(steps: &'a [Step], by: u32, table: &[u8], key: &Value) -> Option<&'a Change>
    ensures { option_copied result ≡ change_at (changes_by by steps.now) table.now key.now }
{
    for step in steps {
        if step.by.0 == by && changes_key(&step.deed, table, key) {
            return change_of(&step.deed);
        }
    }
    None
}

/// Tells whether a deed sets a point.
pub fn is_point(point: &Point, deed: &Deed) -> bool
    ensures { result ≡ is_point_test point.now deed.now }
{
    match point {
        Point::LastMark => match deed {
            Deed::Marked => true,
            Deed::Changed(_) => false,
            Deed::Saved(_) => false,
        },
        Point::SavepointNamed(name) => match deed {
            Deed::Saved(other) => same_name(name.as_slice(), other.as_slice()),
            Deed::Changed(_) => false,
            Deed::Marked => false,
        },
    }
}

/// The place of the newest step of a transaction that sets a point.
pub fn point_place(steps: &[Step], by: u32, point: &Point) -> Option<usize>
    ensures place { result ≡ first_point by point.now steps.now }
    ensures inside { IfSome result (λ place. place < length steps.now) }
{
    for (place, step) in steps.iter().enumerate() {
        if step.by.0 == by && is_point(point, &step.deed) {
            return Some(place);
        }
    }
    None
}

/// Copies of the changes that a transaction made, in their order.
pub fn own_changes(alloc: Global, steps: &[Step], by: u32) -> Result<Vec<Change>, Memory>
    ensures { IfOk result (λ changes. changes.items ≡ changes_by by steps.now) }
{
    let mut changes = Vec::new(alloc);
    for step in steps {
        push_change(alloc, &mut changes, step, by)?;
    }
    Ok(changes)
}

/// Pushes a copy of the change of a step, if the transaction made one.
fn push_change(alloc: Global, changes: &mut Vec<Change>, step: &Step, by: u32) -> Result<(), Memory>
    ensures { OnOk result
        (changes.new.items ≡ changes.old.items ++ changes_by by (step.now ∷ [])) }
{
    if step.by.0 == by
        && let Some(change) = change_of(&step.deed)
    {
        changes.push(change.copy(alloc)?)?;
    }
    Ok(())
}
