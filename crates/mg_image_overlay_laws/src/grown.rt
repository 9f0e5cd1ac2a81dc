//! Tables that grow within a batch of records: a table gets pages, of pointers or of data, and then a
//! version of a record is written, in one batch.
//!
//! Owns: the row of growth (`Grows`): each step occupies a free page, and then the table's last pointer
//! page names it, as the next one or by an entry. A page that is linked and gets its first entry in one
//! batch is two steps, with a view in between that no disk and no pool has. After the row the table ends
//! where its pages say (`EndsAt`), the image is sound with the grown layout, and reads as before
//! (`HasGrown`). And the batches that write a version behind such a row:
//!
//! - a record's first version (`AddGrownKeeps`), a push (`PushGrownKeeps`), an own version that moves
//!   (`MoveGrownKeeps`), and growth alone (`GrowthKeeps`).
//!
//! What a statement knows is asked of the pool as it was before the batch. That the cells' pages are the
//! table's is told by the orders alone, which walk the pointer pages to them.
//!
//! All stands in `specs/`: definitions in `Growing`, the row in `GrowingLaws`, what a writer knows before
//! and after it in `Knowing`, and one file a batch. There is no program here: each function's contract is
//! a law.

ghost use Rattle.mg_image_overlay_laws.specs.tables.FirstGrown.{AddGrownKeeps};
ghost use Rattle.mg_image_overlay_laws.specs.tables.GrowthEvery.{GrowthKeeps};
ghost use Rattle.mg_image_overlay_laws.specs.tables.MoveGrown.{MoveGrownKeeps};
ghost use Rattle.mg_image_overlay_laws.specs.tables.PushGrown.{PushGrownKeeps};
ghost use Rattle.mg_image.specs.Form.{packed_form};

use mg_image::one_reading;

/// A table, or the catalog, gets pages.
pub fn growth_keeps()
    ensures { GrowthKeeps packed_form }
{
    one_reading();
}

/// A record gets its first version, in a table that gets pages in the same batch.
pub fn first_versions_grow()
    ensures { AddGrownKeeps packed_form }
{
    one_reading();
}

/// A version is pushed over a committed one, in a table that gets pages in the same batch.
pub fn pushes_grow()
    ensures { PushGrownKeeps packed_form }
{
    one_reading();
}

/// A version is replaced by one of its transaction in another cell, in a table that gets pages in the
/// same batch.
pub fn moves_grow()
    ensures { MoveGrownKeeps packed_form }
{
    one_reading();
}
