//! What is told of a chain that can't be followed.

ghost use Rattle.std.specs.Prelude.{◌≡◌, ◌-◌};
ghost use Rattle.mg_chain.specs.Refusals.{damage, length_wanted as length_wanted_of};

use mg_base::{Damaged, Field, GREATEST_LIMIT, PageNo};
use mg_version::Link;

/// Bytes that spell no cell: they begin one up to a place.
pub(crate) fn cell_damage(page: PageNo, at: u32, len: usize) -> Damaged
    ensures { result ≡ damage page.0 Field.Cell at (length_wanted_of at len) }
{
    Damaged {
        page,
        field: Field::Cell,
        found: u64::from(at),
        wanted: length_wanted(at, len),
    }
}

/// The length that is wanted of bytes of which so many are well formed: their whole length, or, where all of them are
/// and they only end too early, one byte more.
pub fn length_wanted(at: u32, len: usize) -> u64
    ensures { result ≡ length_wanted_of at len }
{
    let (found, whole) = (u64::from(at), len as u64);
    if found == whole { found + 1 } else { whole }
}

/// A link to a page that no database has.
pub(crate) fn link_damage(holder: PageNo, link: Link) -> Damaged
    ensures { result ≡ damage holder.0 Field.Link link.rec.page.0 (GREATEST_LIMIT - 1) }
{
    Damaged {
        page: holder,
        field: Field::Link,
        found: u64::from(link.rec.page.0),
        wanted: u64::from(GREATEST_LIMIT - 1),
    }
}

/// A link that meets no version of the transaction that it names.
pub(crate) fn target_damage(link: Link, found: u32) -> Damaged
    ensures { result ≡ damage link.rec.page.0 Field.Target found link.tx.0 }
{
    Damaged {
        page: link.rec.page,
        field: Field::Target,
        found: u64::from(found),
        wanted: u64::from(link.tx.0),
    }
}
