//! What is found in the pages of a table.

ghost use Rattle.std.specs.Prelude.{◌⊎◌, IfOk, length};
ghost use Rattle.mg_base.specs.Image.{page_at};
ghost use Rattle.mg_check_data.specs.DataRung.{HasOne};
ghost use Rattle.mg_check_inventory.specs.ImagePages.{IsWholeImage};
ghost use Rattle.mg_check_tables.specs.TableRung.{HasTable, IsTableFinding};
ghost use Rattle.mg_findings.specs.Findings.{IsListOf};

use crate::tasks::data_findings;
use mg_base::{Bytes, Memory};
use mg_check_tables::table_seats;
use mg_findings::{Finding, in_order, note};
use std::alloc::Global;
use std::thread::Threads;

/// What is found in the pages of a table of an image, of which these are the pages, as `note_table`
/// finds it: one list, in which each finding stands once, and they ascend. As many threads as there
/// are processors look at its data pages, and the list is the same for any number of them.
///
/// `size` is the page size in bytes, `holder` the page that names the first pointer page, `first`
/// that page's number.
///
/// # Errors
///
/// `Memory` only, whatever is found: threads take some, too.
pub fn table_findings(
    rt: &(impl Threads + Sync),
    alloc: Global,
    size: u32,
    pages: &[Bytes],
    holder: u32,
    first: u32,
) -> Result<Vec<Finding>, Memory>
    requires { IsWholeImage size pages.now }
    ensures list { IfOk result (λ found. IsListOf
        (IsTableFinding size (page_at size pages.now) (length pages.now) holder first) found.items) }
    ensures decided { IfOk result (λ found.
        HasOne (IsTableFinding size (page_at size pages.now) (length pages.now) holder first)
        ⊎ HasTable size (page_at size pages.now) first) }
{
    let it = table_seats(alloc, size, pages, holder, first)?;
    let mut found = data_findings(rt, alloc, size, pages, it.seats.as_slice())?;
    note(&mut found, it.test)?;
    in_order(&mut found);
    Ok(found)
}
