//! Which overlays are linked, with all orders of a batch and without one of them.

use crate::laying::Laid;
use crate::links::{Want, Wanted, parts, roots, walk};
use mg_base::Memory;
use std::alloc::Global;

/// How many sets are tried, at most.
const MOST_SETS: usize = 1024;

/// A closed set whose overlay is not linked, and what is not there.
#[derive(Drop)]
pub struct Broken {
    pub set: Vec<bool>,
    pub lack: Want,
}

/// The first closed set whose overlay is not linked, where an order is left out, if one is given: not linked from
/// the roots, or, with what disk and cache want, from what the overlay has to keep.
///
/// # Errors
///
/// `Memory` only.
pub fn first_broken(
    alloc: Global,
    laid: &Laid,
    wanted: Option<&Wanted>,
    without: Option<usize>,
) -> Result<Option<Broken>, Memory> {
    let mut set = vec![in alloc; false; laid.pages.len()]?;
    for _ in 0..MOST_SETS {
        if is_closed(laid, &set, without) {
            if let Some(lack) = lack_of(alloc, laid, wanted, &set)? {
                return Ok(Some(Broken { set, lack }));
            }
        }
        if !step(&mut set) {
            return Ok(None);
        }
    }
    Ok(None)
}

// What an overlay lacks, if it is not linked.
fn lack_of(
    alloc: Global,
    laid: &Laid,
    wanted: Option<&Wanted>,
    set: &[bool],
) -> Result<Option<Want>, Memory> {
    let from = match wanted {
        Some(wanted) => parts(alloc, laid, set, wanted)?,
        None => roots(alloc, laid, set)?,
    };
    Ok(walk(alloc, laid, set, from)?.lack)
}

/// How many sets are closed, with all orders.
///
/// # Errors
///
/// `Memory` only.
pub fn closed_sets(alloc: Global, laid: &Laid) -> Result<usize, Memory> {
    let mut set = vec![in alloc; false; laid.pages.len()]?;
    let mut count = 0usize;
    for _ in 0..MOST_SETS {
        if is_closed(laid, &set, None) {
            count = count.saturating_add(1);
        }
        if !step(&mut set) {
            return Ok(count);
        }
    }
    Ok(count)
}

// The next set, by counting, and whether there is one.
fn step(set: &mut Vec<bool>) -> bool {
    for at in 0..set.len() {
        if !set[at] {
            set[at] = true;
            return true;
        }
        set[at] = false;
    }
    false
}

// Tells whether a set is closed where one of the orders is left out.
fn is_closed(laid: &Laid, set: &[bool], without: Option<usize>) -> bool {
    for (at, order) in laid.orders.iter().enumerate() {
        if without != Some(at)
            && has_page(laid, set, order.later)
            && !has_page(laid, set, order.first)
        {
            return false;
        }
    }
    true
}

// Tells whether a page is in a set.
fn has_page(laid: &Laid, set: &[bool], page: u32) -> bool {
    for (at, n) in laid.pages.iter().enumerate() {
        if *n == page {
            return set.get(at).copied().unwrap_or(false);
        }
    }
    false
}

/// Tells whether no changed page lies between the two of an order: else others say it, too.
pub fn stands_alone(laid: &Laid, first: u32, later: u32) -> bool {
    for between in laid.pages.iter() {
        if comes_before(laid, first, *between) && comes_before(laid, *between, later) {
            return false;
        }
    }
    true
}

// Tells whether one page is written before another.
fn comes_before(laid: &Laid, first: u32, later: u32) -> bool {
    for order in laid.orders.iter() {
        if order.first == first && order.later == later {
            return true;
        }
    }
    false
}
