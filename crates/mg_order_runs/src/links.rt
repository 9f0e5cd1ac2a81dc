//! The plain walk along the links of an image: what is wanted of it, and whether each thing is there.

use crate::laying::{Laid, is_blank, page_at};
use mg_base::Memory;
use mg_careful::{Demand, Links};
use mg_space::{FireLinks, HEADER, POINTER, TREE};
use std::alloc::Global;

/// How many things a walk looks at, at most: more than any of these images has.
const MOST_WANTS: usize = 10_000;

/// A thing that is wanted, and the page that leads to it: its own page, where it is a root.
#[derive(Clone, Copy)]
pub struct Want {
    pub demand: Demand,
    pub by: u32,
}

/// What a walk has come to: all that is wanted, and the first of it that is not there.
#[derive(Drop)]
pub struct Reached {
    pub wants: Vec<Want>,
    pub lack: Option<Want>,
}

/// What disk and cache want, each of its own pages.
#[derive(Drop)]
pub struct Wanted {
    pub disk: Vec<Want>,
    pub pool: Vec<Want>,
}

/// A page of an overlay: as the cache has it, where it is in the set, else as the disk has it.
pub fn overlaid<'a>(laid: &'a Laid, set: &[bool], page: u32) -> &'a [u8] {
    if is_in(laid, set, page) == Some(true) {
        return page_at(&laid.contents, place_of(laid, page));
    }
    page_at(&laid.disk, page as usize)
}

// The place of a page among those that are changed, their number where it is none of them.
fn place_of(laid: &Laid, page: u32) -> usize {
    for (at, n) in laid.pages.iter().enumerate() {
        if *n == page {
            return at;
        }
    }
    laid.pages.len()
}

/// Whether a changed page is in a set, none where the page is not changed.
pub fn is_in(laid: &Laid, set: &[bool], page: u32) -> Option<bool> {
    set.get(place_of(laid, page)).copied()
}

/// The roots of an overlay: the header, the table KV, and the tree, if there is one. A page 0 of zeros says that
/// there is no database yet.
///
/// # Errors
///
/// `Memory` only.
pub fn roots(alloc: Global, laid: &Laid, set: &[bool]) -> Result<Vec<Want>, Memory> {
    let mut wants = Vec::new(alloc);
    if is_blank(overlaid(laid, set, 0)) {
        return Ok(wants);
    }
    wants.push(root(0, HEADER, 0))?;
    wants.push(root(5, POINTER, 5))?;
    if laid.tree != 0 {
        wants.push(root(laid.tree, TREE, 5))?;
    }
    Ok(wants)
}

// A thing that is wanted as a root.
fn root(page: u32, what: u8, a: u32) -> Want {
    Want {
        demand: Demand {
            target: page,
            what,
            a,
            b: 0,
        },
        by: page,
    }
}

/// Walks over an overlay from these wants on, each thing once.
///
/// # Errors
///
/// `Memory` only.
pub fn walk(alloc: Global, laid: &Laid, set: &[bool], from: Vec<Want>) -> Result<Reached, Memory> {
    let mut wants = from;
    let mut lack = None;
    for at in 0..MOST_WANTS {
        let Some(want) = want_at(&wants, at) else {
            break;
        };
        let page = overlaid(laid, set, want.demand.target);
        if FireLinks::meets(page, &want.demand) {
            follow(alloc, page, want.demand, &mut wants)?;
        } else if lack.is_none() {
            lack = Some(want);
        }
    }
    Ok(Reached { wants, lack })
}

// The want at a place, if there are so many.
fn want_at(wants: &[Want], at: usize) -> Option<Want> {
    wants.get(at).copied()
}

// Adds what a thing on a page demands in turn.
fn follow(alloc: Global, page: &[u8], demand: Demand, wants: &mut Vec<Want>) -> Result<(), Memory> {
    let mut found = Vec::new(alloc);
    FireLinks::demands(page, &demand, &mut found)?;
    for one in found.iter() {
        if !has(wants, *one) {
            wants.push(Want {
                demand: *one,
                by: demand.target,
            })?;
        }
    }
    Ok(())
}

// Tells whether a thing is wanted already.
fn has(wants: &[Want], demand: Demand) -> bool {
    for want in wants {
        if want.demand == demand {
            return true;
        }
    }
    false
}

/// What disk and cache want.
///
/// # Errors
///
/// `Memory` only.
pub fn wanted_in(alloc: Global, laid: &Laid) -> Result<Wanted, Memory> {
    let none = vec![in alloc; false; laid.pages.len()]?;
    let all = vec![in alloc; true; laid.pages.len()]?;
    Ok(Wanted {
        disk: walk(alloc, laid, &none, roots(alloc, laid, &none)?)?.wants,
        pool: walk(alloc, laid, &all, roots(alloc, laid, &all)?)?.wants,
    })
}

/// What an overlay has to keep by the law of careful write: what the cache wants of the pages of the set, what
/// the disk wants of the changed pages outside it, and what either wants of the others.
///
/// # Errors
///
/// `Memory` only.
pub fn parts(
    alloc: Global,
    laid: &Laid,
    set: &[bool],
    wanted: &Wanted,
) -> Result<Vec<Want>, Memory> {
    let mut wants = Vec::new(alloc);
    add_but(laid, set, &wanted.pool, Some(false), &mut wants)?;
    add_but(laid, set, &wanted.disk, Some(true), &mut wants)?;
    Ok(wants)
}

// Adds wants, but those of the pages that stand so to the set.
fn add_but(
    laid: &Laid,
    set: &[bool],
    from: &[Want],
    but: Option<bool>,
    wants: &mut Vec<Want>,
) -> Result<(), Memory> {
    for want in from {
        if is_in(laid, set, want.demand.target) != but && !has(wants, want.demand) {
            wants.push(*want)?;
        }
    }
    Ok(())
}
