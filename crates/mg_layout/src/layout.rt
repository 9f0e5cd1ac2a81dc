//! The layout of an image: where the catalog stands, and the tables that it names.

ghost use Rattle.std.specs.Prelude.{◌≡◌, IfErr, IfOk};
ghost use Rattle.mg_reading.specs.ImageView.{pages_in};
ghost use Rattle.mg_reading.specs.Readable.{Refutes};
ghost use Rattle.mg_image.specs.Tables.{Layout};
ghost use Rattle.mg_layout.specs.HasPages.{HasPages};
ghost use Rattle.mg_layout.specs.LayoutLaws.{HasOneLayout};
ghost use Rattle.mg_layout.specs.Refusals.{HasLayout, IsOfPages, pages_fault};
ghost use Rattle.mg_layout.specs.Standing.{layout_in};

use crate::catalog::{catalog_at, catalog_table, named_tables};
use crate::laws::one_layout;
use crate::place::{stand_of, stands_of};
use crate::standing::Standing;
use mg_image::one_reading;
use mg_reading::{Image, ReadFault, RowCoding, Rule};
use std::alloc::Global;

/// Where the catalog and the tables of an image stand.
///
/// # Errors
///
/// `Broken` only where they can stand nowhere; `Memory`.
fn find_layout(alloc: Global, image: &Image, coding: RowCoding) -> Result<Standing, ReadFault>
    ensures pages { IfOk result (λ found. HasPages coding image.now (layout_in found)) }
    ensures broken { IfErr result (Refutes (HasLayout coding image.now)) }
{
    one_reading();
    if !image.has_inventory() {
        return Err(ReadFault::Broken(Rule::Pages));
    }
    let catalog = stand_of(alloc, image, catalog_table(alloc, catalog_at(image))?)?;
    let tables = named_tables(alloc, image, coding, &catalog)?;
    let tables = stands_of(alloc, image, tables)?;
    Ok(Standing { catalog, tables })
}

/// A fault as one of the rule of pages: whatever is broken on the way to the tables.
fn of_pages(fault: ReadFault) -> ReadFault
    ensures { result ≡ pages_fault fault }
{
    match fault {
        ReadFault::Broken(_) => ReadFault::Broken(Rule::Pages),
        ReadFault::Memory => ReadFault::Memory,
    }
}

/// Where the catalog and the tables of an image stand.
///
/// # Errors
///
/// `Broken(Rule::Pages)` only where they can stand nowhere; `Memory`.
pub fn layout_of(alloc: Global, image: &Image, coding: RowCoding) -> Result<Standing, ReadFault>
    ensures pages { IfOk result (λ found. HasPages coding image.now (layout_in found)) }
    ensures only { IfOk result (λ found. (layout : Layout) → HasPages coding image.now layout
        → layout ≡ layout_in found) }
    ensures broken { IfErr result (Refutes (HasLayout coding image.now)) }
    ensures rule { IfErr result IsOfPages }
{
    one_layout(coding);
    match find_layout(alloc, image, coding) {
        Ok(found) => Ok(found),
        Err(fault) => Err(of_pages(fault)),
    }
}
