//! Tasks that threads share, and what they find.

ghost use Rattle.std.specs.List.{AllZip};
ghost use Rattle.std.specs.Prelude.{◌≡◌, ◌⊎◌, ◌↔◌, ◌++◌, IfOk, OnOk, flat_map, length};
ghost use Rattle.mg_base.specs.Image.{page_at};
ghost use Rattle.mg_check_data.specs.DataRung.{HasOne};
ghost use Rattle.mg_check_inventory.specs.ImagePages.{IsWholeImage};
ghost use Rattle.mg_check_tables.specs.Seats.{AreWanted, IsSeatFinding};
ghost use Rattle.mg_check_tasks.specs.Tasks.{IsFoundOf};
ghost use Rattle.mg_findings.specs.Findings.{Has};
ghost use Rattle.mg_findings.specs.declared.finding.Finding.{Finding as AFinding};

use mg_base::{Bytes, Memory};
use mg_check_data::{DataSeat, note_data};
use mg_findings::Finding;
use rayon::prelude::*;
use std::alloc::{AllocError, Global};
use std::thread::Threads;

/// What is found of a data page.
///
/// # Errors
///
/// `Memory` only.
fn findings_of(
    alloc: Global,
    size: u32,
    pages: &[Bytes],
    seat: DataSeat,
) -> Result<Vec<Finding>, Memory>
    requires { IsWholeImage size pages.now }
    ensures { IfOk result (λ found.
        IsFoundOf size (page_at size pages.now) (length pages.now) seat found.items) }
{
    let mut found = Vec::new(alloc);
    note_data(alloc, &mut found, size, pages, seat)?;
    Ok(found)
}

/// What is found of each of several data pages, by as many threads as there are processors.
///
/// # Errors
///
/// `Memory` only.
fn each_findings(
    rt: &(impl Threads + Sync),
    alloc: Global,
    size: u32,
    pages: &[Bytes],
    seats: &[DataSeat],
) -> Result<Vec<Vec<Finding>>, Memory>
    requires { IsWholeImage size pages.now }
    ensures { IfOk result (λ lists. AllZip (λ seat found.
        IsFoundOf size (page_at size pages.now) (length pages.now) seat found.items)
        seats.now lists.items) }
{
    // A page takes tens of microseconds: eight of them are worth a thread's coming and going.
    let tested: Result<Result<Vec<Vec<Finding>>, Memory>, AllocError> = seats
        .par_iter()
        .with_min_len(8)
        .map(
            |seat: &DataSeat| -> Result<Vec<Finding>, Memory>
                requires { IsWholeImage size pages.now }
                ensures { IfOk result (λ found. IsFoundOf size (page_at size pages.entry.now)
                    (length pages.entry.now) seat.now found.items) }
            { findings_of(alloc, size, pages, *seat) },
        )
        .collect(rt, alloc);
    match tested {
        Ok(lists) => lists,
        Err(_) => Err(Memory),
    }
}

/// Adds findings behind others.
fn append(all: &mut Vec<Finding>, more: &[Finding]) -> Result<(), Memory>
    ensures { OnOk result (all.new.items ≡ all.old.items ++ more.now) }
{
    Ok(all.extend_from_slice(more)?)
}

/// These lists one after another.
///
/// # Errors
///
/// `Memory` only.
fn joined(alloc: Global, lists: &[Vec<Finding>]) -> Result<Vec<Finding>, Memory>
    ensures { IfOk result (λ all. all.items ≡ flat_map (λ list. list.items) lists.now) }
{
    let mut all = Vec::new(alloc);
    let mut rest = lists;
    while let Some((first, later)) = rest.split_first() {
        append(&mut all, first)?;
        rest = later;
    }
    Ok(all)
}

/// What is found of several data pages, as `note_data` finds it of each, in the order of the pages.
/// Threads share them; how many there are, and which comes first, makes no difference.
///
/// # Errors
///
/// `Memory` only, whatever is found: threads take some, too.
pub(crate) fn data_findings(
    rt: &(impl Threads + Sync),
    alloc: Global,
    size: u32,
    pages: &[Bytes],
    seats: &[DataSeat],
) -> Result<Vec<Finding>, Memory>
    requires { IsWholeImage size pages.now }
    ensures members { IfOk result (λ found. (f : AFinding) → Has found.items f
        ↔ IsSeatFinding size (page_at size pages.now) (length pages.now) seats.now f) }
    ensures decided { IfOk result (λ found.
        HasOne (IsSeatFinding size (page_at size pages.now) (length pages.now) seats.now)
        ⊎ AreWanted size (page_at size pages.now) seats.now) }
{
    let lists = each_findings(rt, alloc, size, pages, seats)?;
    Ok(joined(alloc, &lists)?)
}
