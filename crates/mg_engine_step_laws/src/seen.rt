//! What a transaction sees of a catalog whose rows are only made stands newest.
//!
//! Owns: the law that where an active transaction sees a row of the catalog, the newest version that stands for the
//! row's key is one that it sees (`NewestIsSeen`), however old its base is. So whoever reads the catalog's
//! records finds the same version of that row, and the page numbers in it.
//!
//! All stands in `specs/`. There is no program here: the function does nothing, and its contract is the law.

ghost use Rattle.mg_engine_step_laws.specs.tables.Seen.{NewestIsSeen};

use mg_grown_catalog_laws::catalogs_grow;

/// The newest version of a row of the catalog that an active transaction sees is the one that it sees.
pub fn newest_are_seen()
    ensures { NewestIsSeen }
{
    catalogs_grow();
}
