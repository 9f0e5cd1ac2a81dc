//! The test of one field of a page, for numbers of 64 bits.

ghost use Rattle.std.specs.Prelude.{◌≡◌, [], ◌∷◌};
ghost use Rattle.mg_base.specs.Checks.{verdict};

use mg_base::{Damaged, Field, PageNo};

/// Passes a field that is as wanted, and names one that isn't.
pub(crate) fn same(page: PageNo, field: Field, found: u64, wanted: u64) -> Result<(), Damaged>
    ensures { result ≡ verdict page ((field, found, wanted) ∷ []) }
{
    if found == wanted {
        Ok(())
    } else {
        Err(Damaged {
            page,
            field,
            found,
            wanted,
        })
    }
}
