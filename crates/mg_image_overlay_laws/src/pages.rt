//! Pages in overlays: what a batch owes that draws a number, gives a table a page, or makes a table,
//! from the pool's change to every overlay.
//!
//! Owns: these batches as changes of pages, and the laws that each keeps what every overlay has to be.
//! A number is drawn (`DrawsNumber`: the header alone), a table gets a data page (`GrowsPages`: a bit of
//! the page inventory, the new page, an entry of the table's last pointer page), a table is made
//! (`CreatesTables`: its maker comes to count as in limbo, and the layout gets its tables), pages that
//! nothing links are changed (`FrameKept`).
//!
//! An overlay may reach a table's last pointer page or not. Where it does, each pointer page before it
//! names a next one, so it is as in the pool (`IsBehind`), and the table has the same pages there: no
//! order between pointer pages is needed.
//!
//! All stands in `specs/`: `Draw`; `GrowPages`, `GrowKept` and `GrowEvery`; `Creating`; `FrameKept`.

ghost use Rattle.mg_image.specs.Form.{packed_form};
ghost use Rattle.mg_image_overlay_laws.specs.names.Creating.{CreateKeeps};
ghost use Rattle.mg_image_overlay_laws.specs.pages.Draw.{DrawKeeps};
ghost use Rattle.mg_image_overlay_laws.specs.pages.GrowEvery.{GrowKeeps};

/// A number is drawn.
pub fn draws_keep()
    ensures { DrawKeeps packed_form }
{}

/// A table gets a data page.
pub fn grown_tables_keep()
    ensures { GrowKeeps packed_form }
{}

/// A table is made.
pub fn new_tables_keep()
    ensures { CreateKeeps packed_form }
{}
