//! What is committed of a catalog that grows stays. The function does nothing: its contract is the laws.

ghost use Rattle.mg_grown_catalog_laws.specs.Grown.{BasesAreWithin, CommittedRowsStay, OwnRowsAreNew, SeenIsNotMade};
ghost use Rattle.mg_grown_catalog_laws.specs.MadeOnce.{RowsAreMadeOnce};
ghost use Rattle.mg_grown_catalog_laws.specs.Together.{RowsAreTogether};

use mg_model::changes_are_fine;

/// Rows of the catalog stay once they are committed, no open transaction makes one that another sees, and none makes one
/// twice; those of a table it makes together.
pub fn catalogs_grow()
    ensures stay { CommittedRowsStay }
    ensures within { BasesAreWithin }
    ensures own { OwnRowsAreNew }
    ensures seen { SeenIsNotMade }
    ensures once { RowsAreMadeOnce }
    ensures together { RowsAreTogether }
{
    changes_are_fine();
}
