//! All catalog rows of a statement in one batch. Each function's contract is the law.

ghost use Rattle.mg_tie_laws.specs.CatalogRows.{FilledCatalogKeeps};
ghost use Rattle.mg_tie_laws.specs.FilledPages.{FilledPagesStay};
ghost use Rattle.mg_image.specs.Form.{packed_form};

use mg_base::Disk;
use mg_careful::Links;
use mg_image::one_reading;

/// Tables are made: all their catalog rows and first pages in one batch.
pub fn filled_catalogs_keep<D: Disk, L: Links>()
    ensures { FilledCatalogKeeps packed_form D L D.meaning }
{
    one_reading();
}

/// Of the pages in use such a batch leaves those of other owners than the catalog, and those that it takes have
/// the bytes with which they were made.
pub fn filled_pages_stay<D: Disk, L: Links>()
    ensures { FilledPagesStay packed_form D L D.meaning }
{
    one_reading();
}
