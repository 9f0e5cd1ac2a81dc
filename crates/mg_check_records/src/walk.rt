//! The walk over the versions of a record.

ghost use Rattle.std.specs.Prelude.{◌≡◌, ◌≤◌, ◌*◌, IfOk, false, length};
ghost use Rattle.mg_base.specs.Image.{page_at};
ghost use Rattle.mg_check_inventory.specs.ImagePages.{IsWholeImage};
ghost use Rattle.mg_check_records.specs.Marks.{met_in, most_slots};
ghost use Rattle.mg_check_records.specs.Walks.{IsWalk, all_met};
ghost use Rattle.mg_image.specs.Records.{cells_of};
ghost use Rattle.mg_image.specs.Sound.{IsTableData};
ghost use Rattle.mg_image.specs.Tables.{EachFrom};

use crate::marks::Marks;
use crate::step::{Step, go_on};
use mg_base::{Bytes, Memory, RecId};
use mg_findings::Finding;
use mg_image::Entry;
use mg_model::Table;
use mg_value::MOST_COLUMNS;
use mg_version::Link;
use std::alloc::Global;

/// How far a walk over the versions of a record has come.
#[derive(Drop)]
pub struct Walked {
    /// The versions, the newest first.
    pub entries: Vec<Entry>,
    /// What is found where it could not go on.
    pub stopped: Option<Finding>,
}

/// Walks over the versions of a record of a table of an image, of which these are the pages: from the
/// newest back, to the end of the chain, or to the first link or version that is not as wanted. The
/// cells that it comes to are marked.
///
/// `size` is the page size in bytes, `data_pages` the table's data pages, whose cells were tested,
/// `marks` has a mark for each slot that they can have, `p` is the record's primary slot, and
/// `newest` the link that it holds. What may be found, in the order of the tests: at the cell that
/// holds a link `Field::Link`, where it leads to no data page of the table; where it leads to,
/// `Field::Target`; at the cell that holds it `Field::Link`, where the cell was met before; at the
/// version `Field::Format`, `Field::Run`, `Field::Row`.
///
/// # Errors
///
/// `Memory` only. Then some more cells may be marked.
pub fn walk_record(
    alloc: Global,
    size: u32,
    pages: &[Bytes],
    table: &Table,
    data_pages: &[u32],
    marks: &mut Marks,
    p: RecId,
    newest: Option<Link>,
) -> Result<Walked, Memory>
    requires image { IsWholeImage size pages.now }
    requires columns { length table.now.shape.columns ≤ MOST_COLUMNS }
    requires tested { EachFrom (IsTableData false size (page_at size pages.now)
        table.now.pointer.0) 0 data_pages.now }
    requires marks { length marks.old ≡ length data_pages.now * most_slots size }
    ensures walk { IfOk result (λ it. IsWalk (cells_of (page_at size pages.now)) table.now
        data_pages.now (met_in data_pages.now (most_slots size) marks.old) p newest
        it.entries.items it.stopped) }
    ensures met { IfOk result (λ it. met_in data_pages.now (most_slots size) marks.new
        ≡ all_met it.entries.items (met_in data_pages.now (most_slots size) marks.old)) }
    ensures len { IfOk result (λ it. length marks.new ≡ length marks.old) }
{
    let mut entries = Vec::new(alloc);
    let mut holder = p;
    let mut next = newest;
    while let Some(link) = next {
        let entry = match go_on(alloc, size, pages, table, data_pages, marks, holder, link)? {
            Step::Entry(entry) => entry,
            Step::Stopped(finding) => {
                return Ok(Walked {
                    entries,
                    stopped: Some(finding),
                });
            }
        };
        holder = link.rec;
        next = entry.version.back;
        entries.push(entry)?;
    }
    Ok(Walked {
        entries,
        stopped: None,
    })
}
