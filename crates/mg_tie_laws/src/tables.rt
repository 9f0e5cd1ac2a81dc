//! A new table in one batch. Each function's contract is the law.

ghost use Rattle.std.specs.Prelude.{ℕ, List};
ghost use Rattle.mg_image.specs.Form.{packed_form};
ghost use Rattle.mg_value.specs.declared.shape.Shape.{Shape as AnyShape};
ghost use Rattle.mg_tie_laws.specs.Made.{FilledTablesGo, FilledTablesKeep};
ghost use Rattle.mg_tie_laws.specs.RowsMade.{RowsAreEntries};
ghost use Rattle.mg_tie_laws.specs.Ties.{TablesFillCatalogs};

use mg_base::Disk;
use mg_careful::Links;
use mg_image::one_reading;

/// A batch with a new table is filled as the laws on catalogs say.
pub fn tables_fill_catalogs<D: Disk, L: Links>()
    ensures { TablesFillCatalogs packed_form D L }
{}

/// The rows on the pages are those of the history's entries, under the same keys.
pub fn rows_are_entries()
    ensures { (name : List ℕ) (shape : AnyShape) (page : ℕ) → RowsAreEntries name shape page }
{}

/// Every overlay is kept where tables are made in one batch, for the history with an entry for each row.
pub fn made_tables_are_kept<D: Disk, L: Links>()
    ensures pool { FilledTablesGo packed_form D L D.meaning }
    ensures alone { FilledTablesKeep packed_form D L D.meaning }
{
    one_reading();
}
