//! The transcript of steps.

use crate::judging::{Broken, closed_sets, first_broken, stands_alone};
use crate::laying::{Laid, lay, made, written};
use crate::links::{Want, Wanted, wanted_in};
use crate::reading::{Deed, Step, Verb};
use mg_base::Memory;
use mg_careful::Order;
use mg_space::{BIT, DATA, HEADER, NEXT, NODE, POINTER, SpaceFault, TRANSACTIONS, TREE, VERSION};
use std::alloc::Global;

/// How many pages may be changed in a batch that is judged.
const MOST_PAGES: usize = 10;

/// The transcript of descriptions.
///
/// # Errors
///
/// `Memory` only.
pub fn tell_all(alloc: Global, steps: &[Step]) -> Result<String, Memory> {
    let mut out = String::new(alloc);
    let mut deeds = Vec::new(alloc);
    for (at, step) in steps.iter().enumerate() {
        if step.deed.verb == Verb::Heading && at > 0 {
            out.push('\n')?;
        }
        put_line(step.text.as_str(), &mut out)?;
        tell_step(alloc, step.deed, &mut deeds, &mut out)?;
    }
    Ok(out)
}

// Keeps a deed, or tells what the deeds since the heading have come to.
fn tell_step(
    alloc: Global,
    deed: Deed,
    deeds: &mut Vec<Deed>,
    out: &mut String,
) -> Result<(), Memory> {
    match deed.verb {
        Verb::Heading => deeds.truncate(0),
        Verb::Prose => {}
        Verb::Unknown => put_line("no such line", out)?,
        Verb::Orders => tell_laid(alloc, lay(alloc, deeds), true, out)?,
        Verb::Writes => {
            let before = deeds.len().saturating_sub(deed.numbers[0] as usize);
            tell_laid(alloc, written(alloc, deeds, before), false, out)?;
        }
        Verb::Made => tell_laid(alloc, made(alloc), false, out)?,
        _ => {
            deeds.push(deed)?;
        }
    }
    Ok(())
}

// Tells what comes of changed pages, or why there are none.
fn tell_laid(
    alloc: Global,
    laid: Result<Laid, SpaceFault>,
    with_parts: bool,
    out: &mut String,
) -> Result<(), Memory> {
    match laid {
        Ok(laid) => tell_orders(alloc, &laid, with_parts, out),
        Err(fault) => put_line(format!(in alloc; "refused: {fault}")?.as_str(), out),
    }
}

// Tells of each order of changed pages what a crash may leave without it.
fn tell_orders(
    alloc: Global,
    laid: &Laid,
    with_parts: bool,
    out: &mut String,
) -> Result<(), Memory> {
    put_pages(alloc, laid, out)?;
    if laid.pages.len() > MOST_PAGES {
        return put_line("too many pages", out);
    }
    tell_kept(alloc, laid, with_parts, out)?;
    for at in 0..laid.orders.len() {
        let order = laid.orders[at];
        if stands_alone(laid, order.first, order.later) {
            tell_order(alloc, laid, with_parts, at, order, out)?;
        }
    }
    Ok(())
}

// Tells which pages are changed.
fn put_pages(alloc: Global, laid: &Laid, out: &mut String) -> Result<(), Memory> {
    let all = vec![in alloc; true; laid.pages.len()]?;
    let pages = set_text(alloc, laid, &all)?;
    put_line(format!(in alloc; "changed: {pages}")?.as_str(), out)
}

// Tells that all overlays are linked, with all orders.
fn tell_kept(alloc: Global, laid: &Laid, with_parts: bool, out: &mut String) -> Result<(), Memory> {
    match find_broken(alloc, laid, with_parts, None)? {
        Some((text, _)) => put_line(format!(in alloc; "NOT LINKED: {text}")?.as_str(), out),
        None => tell_count(alloc, closed_sets(alloc, laid)?, out),
    }
}

// Tells how many sets are closed.
fn tell_count(alloc: Global, count: usize, out: &mut String) -> Result<(), Memory> {
    let line = format!(in alloc; "{count} closed sets, and the overlay of each is linked")?;
    put_line(line.as_str(), out)
}

// What the first closed set lacks whose overlay is not linked, and whether a root leads there.
fn find_broken(
    alloc: Global,
    laid: &Laid,
    with_parts: bool,
    without: Option<usize>,
) -> Result<Option<(String, bool)>, Memory> {
    if let Some(text) = broken_from(alloc, laid, None, without)? {
        return Ok(Some((text, true)));
    }
    if !with_parts {
        return Ok(None);
    }
    let wanted = wanted_in(alloc, laid)?;
    match broken_from(alloc, laid, Some(&wanted), without)? {
        Some(text) => Ok(Some((text, false))),
        None => Ok(None),
    }
}

// What the first closed set lacks whose overlay is not linked, from the roots or from these wants.
fn broken_from(
    alloc: Global,
    laid: &Laid,
    wanted: Option<&Wanted>,
    without: Option<usize>,
) -> Result<Option<String>, Memory> {
    match first_broken(alloc, laid, wanted, without)? {
        Some(broken) => Ok(Some(broken_text(alloc, laid, &broken)?)),
        None => Ok(None),
    }
}

// Tells what a crash may leave without an order.
fn tell_order(
    alloc: Global,
    laid: &Laid,
    with_parts: bool,
    at: usize,
    order: Order,
    out: &mut String,
) -> Result<(), Memory> {
    put_order(alloc, order, out)?;
    match find_broken(alloc, laid, with_parts, Some(at))? {
        Some((text, rooted)) => put_else(alloc, text.as_str(), rooted, out),
        None => put_line("no link needs it", out),
    }
}

// Writes which page comes before which.
fn put_order(alloc: Global, order: Order, out: &mut String) -> Result<(), Memory> {
    let (first, later) = (order.first, order.later);
    out.push_str(format!(in alloc; "{first} before {later}: ")?.as_str())?;
    Ok(())
}

// Writes what a crash may leave.
fn put_else(alloc: Global, text: &str, rooted: bool, out: &mut String) -> Result<(), Memory> {
    let end = if rooted {
        ""
    } else {
        ", and no root leads there yet"
    };
    put_line(format!(in alloc; "else {text}{end}")?.as_str(), out)
}

// What an overlay lacks.
fn broken_text(alloc: Global, laid: &Laid, broken: &Broken) -> Result<String, Memory> {
    let set = set_text(alloc, laid, &broken.set)?;
    let by = broken.lack.by;
    let want = want_text(alloc, broken.lack)?;
    Ok(format!(in alloc; "{set} may be left alone, where {by} leads to {want}")?)
}

// The pages of a set.
fn set_text(alloc: Global, laid: &Laid, set: &[bool]) -> Result<String, Memory> {
    let mut text = String::new(alloc);
    for (at, page) in laid.pages.iter().enumerate() {
        if set.get(at).copied().unwrap_or(false) {
            if !text.is_empty() {
                text.push(' ')?;
            }
            text.push_str(format!(in alloc; "{page}")?.as_str())?;
        }
    }
    Ok(text)
}

// What is wanted, and of which page.
fn want_text(alloc: Global, want: Want) -> Result<String, Memory> {
    let name = name_of(want.demand.what);
    let (page, a, b) = (want.demand.target, want.demand.a, want.demand.b);
    Ok(format!(in alloc; "{name} {a} {b} of {page}")?)
}

// The name of a kind of things.
fn name_of(what: u8) -> &'static str {
    match what {
        HEADER => "HEADER",
        NEXT => "NEXT",
        TRANSACTIONS => "TRANSACTIONS",
        POINTER => "POINTER",
        DATA => "DATA",
        VERSION => "VERSION",
        TREE => "TREE",
        NODE => "NODE",
        BIT => "BIT",
        _ => "NOTHING",
    }
}

// Writes a line.
fn put_line(line: &str, out: &mut String) -> Result<(), Memory> {
    out.push_str(line)?;
    out.push('\n')?;
    Ok(())
}
