//! The plan of a filter.

ghost use Rattle.std.specs.Prelude.{◌≡◌, ◌∷◌, [], IfOk, Some, map};
ghost use Rattle.mg_expr.specs.Trees.{tree_of};
ghost use Rattle.mg_statements.specs.Plain.{tree_in};
ghost use Rattle.mg_paths.specs.Plans.{first_index as first_index_of, greatest as greatest_of, has_high as has_high_test, has_low as has_low_test, least as least_of, lowered as lowered_by, narrowed as narrowed_by, open_range, plan_by, plan_of, raised as raised_by, range_on as range_on_parts};

use crate::parts::{Serving, serving_part};
use crate::paths::Path;
use crate::range::Range;
use mg_base::Memory;
use mg_expr::{Expr, Sign};
use mg_model::Index;
use mg_value::{Key, order};
use std::alloc::Global;
use std::slice;

/// The place of the first index on a column.
fn first_index(indexes: &[Index], column: u16) -> Option<usize>
    ensures { result ≡ first_index_of 0 indexes.now column }
{
    for (place, index) in indexes.iter().enumerate() {
        if index.column == column {
            return Some(place);
        }
    }
    None
}

/// Tells whether a comparison by this sign bounds its column from below.
fn has_low(sign: Sign) -> bool
    ensures { result ≡ has_low_test sign }
{
    match sign {
        Sign::Equal => true,
        Sign::Unequal => false,
        Sign::Less => false,
        Sign::AtMost => false,
        Sign::Greater => true,
        Sign::AtLeast => true,
    }
}

/// Tells whether a comparison by this sign bounds its column from above.
fn has_high(sign: Sign) -> bool
    ensures { result ≡ has_high_test sign }
{
    match sign {
        Sign::Equal => true,
        Sign::Unequal => false,
        Sign::Less => true,
        Sign::AtMost => true,
        Sign::Greater => false,
        Sign::AtLeast => false,
    }
}

/// The greater of a low end and a constant.
fn greatest(low: Option<Key>, constant: Key) -> Option<Key>
    ensures { result ≡ greatest_of low constant }
{
    let Some(low) = low else {
        return Some(constant);
    };
    if order(low.value(), constant.value()).is_lt() {
        Some(constant)
    } else {
        Some(low)
    }
}

/// The lesser of a high end and a constant.
fn least(high: Option<Key>, constant: Key) -> Option<Key>
    ensures { result ≡ least_of high constant }
{
    let Some(high) = high else {
        return Some(constant);
    };
    if order(constant.value(), high.value()).is_lt() {
        Some(constant)
    } else {
        Some(high)
    }
}

/// A low end that is raised by a serving part.
fn raised(alloc: Global, low: Option<Key>, part: &Serving) -> Result<Option<Key>, Memory>
    ensures { IfOk result (λ raised. raised ≡ raised_by low part.now) }
{
    if has_low(part.sign) {
        Ok(greatest(low, part.constant.copy(alloc)?))
    } else {
        Ok(low)
    }
}

/// A high end that is lowered by a serving part.
fn lowered(alloc: Global, high: Option<Key>, part: &Serving) -> Result<Option<Key>, Memory>
    ensures { IfOk result (λ lowered. lowered ≡ lowered_by high part.now) }
{
    if has_high(part.sign) {
        Ok(least(high, part.constant.copy(alloc)?))
    } else {
        Ok(high)
    }
}

/// A range narrowed by a serving part.
fn narrowed(alloc: Global, range: Range, part: &Serving) -> Result<Range, Memory>
    ensures { IfOk result (λ narrowed. narrowed ≡ narrowed_by range part.now) }
{
    let Range { low, high } = range;
    let low = raised(alloc, low, part)?;
    let high = lowered(alloc, high, part)?;
    Ok(Range { low, high })
}

/// The range of the longest leading run of serving parts on a column.
fn range_on(alloc: Global, column: u16, parts: &[Expr]) -> Result<Range, Memory>
    ensures { IfOk result (λ range. range ≡ range_on_parts column open_range (map tree_of parts.now)) }
{
    let mut range = Range {
        low: None,
        high: None,
    };
    let mut rest = parts;
    while let Some((part, later)) = rest.split_first() {
        let Some(part) = serving_part(alloc, part)? else {
            return Ok(range);
        };
        if part.column != column {
            return Ok(range);
        }
        range = narrowed(alloc, range, &part)?;
        rest = later;
    }
    Ok(range)
}

/// The plan of the parts of a filter.
fn plan(alloc: Global, indexes: &[Index], parts: &[Expr]) -> Result<Path, Memory>
    ensures { IfOk result (λ path. path ≡ plan_by indexes.now (map tree_of parts.now)) }
{
    let Some((first, _)) = parts.split_first() else {
        return Ok(Path::Natural);
    };
    let Some(part) = serving_part(alloc, first)? else {
        return Ok(Path::Natural);
    };
    let Some(place) = first_index(indexes, part.column) else {
        return Ok(Path::Natural);
    };
    let range = range_on(alloc, part.column, parts)?;
    Ok(Path::Index(place, range))
}

/// The plan of one filter.
fn plan_filter(alloc: Global, indexes: &[Index], filter: &Expr) -> Result<Path, Memory>
    ensures { IfOk result (λ path. path ≡ plan_of indexes.now (Some (tree_of filter.now))) }
{
    match filter {
        Expr::And(parts) => plan(alloc, indexes, parts),
        _ => plan(alloc, indexes, slice::from_ref(filter)),
    }
}

/// How the rows of a table are found that may pass a filter: through the first index, in the table's list, on the
/// column of the filter's first part, where that part can be served by an index; else by visiting all records.
///
/// # Errors
///
/// `Memory` only.
pub fn path(alloc: Global, filter: &Option<Expr>, indexes: &[Index]) -> Result<Path, Memory>
    ensures { IfOk result (λ path. path ≡ plan_of indexes.now (tree_in filter.now)) }
{
    match filter {
        Some(filter) => plan_filter(alloc, indexes, filter),
        None => Ok(Path::Natural),
    }
}
