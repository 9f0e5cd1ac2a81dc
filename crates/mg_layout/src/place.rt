//! Where a table stands: its pages, and the pages of its indexes.

ghost use Rattle.std.specs.Prelude.{◌≡◌, IfErr, IfOk};
ghost use Rattle.mg_reading.specs.ImageView.{pages_in};
ghost use Rattle.mg_reading.specs.Readable.{Refutes};
ghost use Rattle.mg_image.specs.Indexes.{AreTrees};
ghost use Rattle.mg_image.specs.Tables.{EachStand};
ghost use Rattle.mg_layout.specs.HasPages.{IsStand, tables_in};
ghost use Rattle.mg_layout.specs.Refusals.{CanAllStand, CanStand, HasTrees};
ghost use Rattle.mg_layout.specs.Standing.{stand_in, stands_in};

use crate::standing::TableStand;
use mg_model::{Index, Table};
use mg_reading::{Image, ReadFault, Rule, check_data_pages, table_pages};
use mg_trees::{Levels, read_tree};
use std::alloc::Global;

/// The levels of each of these indexes of the table of an owner.
///
/// # Errors
///
/// `Broken` only where one of them is no tree; `Memory`.
fn read_trees(
    alloc: Global,
    image: &Image,
    owner: u32,
    indexes: &[Index],
) -> Result<Vec<Levels>, ReadFault>
    ensures trees { IfOk result (λ trees.
        AreTrees image.now.size (pages_in image.now) owner indexes.now trees.items) }
    ensures broken { IfErr result (Refutes (HasTrees image.now owner indexes.now)) }
{
    let mut trees = Vec::new(alloc);
    let mut rest = indexes;
    while let Some((index, later)) = rest.split_first() {
        trees.push(read_tree(alloc, image, owner, index.root.0)?)?;
        rest = later;
    }
    Ok(trees)
}

/// Where a table stands.
///
/// # Errors
///
/// `Broken` only where one of its pages is not as wanted; `Memory`.
pub(crate) fn stand_of(alloc: Global, image: &Image, table: Table) -> Result<TableStand, ReadFault>
    ensures stand { IfOk result (λ stand. IsStand image.now (stand_in stand)) }
    ensures table { IfOk result (λ stand. stand.table ≡ table) }
    ensures broken { IfErr result (Refutes (CanStand image.now table)) }
{
    let owner = table.pointer.0;
    if owner == 0 {
        return Err(ReadFault::Broken(Rule::Pages));
    }
    let pages = table_pages(alloc, image, owner)?;
    check_data_pages(alloc, image, owner, &pages.data_pages)?;
    let trees = read_trees(alloc, image, owner, table.indexes.as_slice())?;
    Ok(TableStand {
        table,
        pages,
        trees,
    })
}

/// Where these tables stand, in their order.
///
/// # Errors
///
/// `Broken` only where a page of one is not as wanted; `Memory`.
pub(crate) fn stands_of(
    alloc: Global,
    image: &Image,
    tables: Vec<Table>,
) -> Result<Vec<TableStand>, ReadFault>
    ensures stands { IfOk result (λ stands.
        EachStand (IsStand image.now) (stands_in stands.items)) }
    ensures tables { IfOk result (λ stands. tables_in (stands_in stands.items) ≡ tables.items) }
    ensures broken { IfErr result (Refutes (CanAllStand image.now tables.items)) }
{
    let mut stands = Vec::new(alloc);
    for table in tables {
        stands.push(stand_of(alloc, image, table)?)?;
    }
    Ok(stands)
}
