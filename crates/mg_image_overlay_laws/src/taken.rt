//! Taken pages in overlays: a free page is taken and made, and then another page names it. What such a
//! batch owes, from the pool's change to every overlay.
//!
//! Owns: these batches as two steps. First a page that was free comes to be used, and has a new content
//! (`OccupiesPage`): nothing that is linked changes, in the pool, and in an overlay that has its page, the
//! page with its bit, both, or none. Then one page comes to name it, and an overlay with that page has
//! the other two by the orders:
//!
//! - the header, which has a higher Next and names it as the last page of transactions (`DrawsPage`);
//! - the last pointer page of a table or of the catalog, as the next one (`LinksPage`), or by an entry,
//!   as a data page (`EntersPage`).
//!
//! An overlay may reach a table's last pointer page or not; where it does, it has all pointer pages of
//! the pool (`ExtendStep`). Where the table stands among those of a layout makes no difference: the
//! catalog's stand is the first (`Extended`).
//!
//! All stands in `specs/`: `TakePart`; `DrawPage`; `PointerPage`, `ExtendSound`, `ExtendKept`,
//! `Extended` and `ExtendStep` for a table with a page more; `LinkPage` and `EntryPage` for what kind of
//! page; `ExtendEvery`. There is no program here: each function does nothing, and its contract is a law.

ghost use Rattle.mg_image.specs.Form.{packed_form};
ghost use Rattle.mg_image_overlay_laws.specs.pages.DrawPage.{DrawPageKeeps};
ghost use Rattle.mg_image_overlay_laws.specs.pages.ExtendEvery.{EnterKeeps, LinkKeeps};

/// A number is drawn with a new page of transactions.
pub fn draws_with_a_page_keep()
    ensures { DrawPageKeeps packed_form }
{}

/// A table, or the catalog, gets a pointer page.
pub fn pointer_pages_keep()
    ensures { LinkKeeps packed_form }
{}

/// A table, or the catalog, gets a data page.
pub fn data_pages_keep()
    ensures { EnterKeeps packed_form }
{}
