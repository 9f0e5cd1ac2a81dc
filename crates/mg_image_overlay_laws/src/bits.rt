//! The bits of a transaction in overlays: what every overlay is while they are changed and not yet
//! written, and once their page is.
//!
//! Owns: the family in mid-commit (`EveryMidway`). A transaction whose pages are all written gets its
//! bits on one page, which is dirty then. An overlay without that page is as it had to be before, beside
//! the pool's image from before; one with it is as it has to be afterwards, for the history with that
//! entry. Once the page is written, every overlay is as it has to be afterwards. So a crash in between
//! leaves what the longer history says, or what the shorter one says, and nothing else.
//!
//! All stands in `specs/`: the family in `Midway`, what counts in `Laws`; `BitsKept` changes the bits in
//! pool and overlay at once, and `MidwayLaws` proves the laws. There is no program here: each function
//! does nothing, and its contract is a law.

ghost use Rattle.mg_image_overlay_laws.specs.transactions.PageLaws.{CommitChanges, MidwayLeaves};
ghost use Rattle.mg_image_overlay_laws.specs.transactions.PageLaws.{MidwayWritesAll, MidwayWrittenAll};
ghost use Rattle.mg_image.specs.Form.{packed_form};

/// The bits of a transaction that needs no page any more are changed to those of a committed one.
pub fn bits_are_changed()
    ensures { CommitChanges packed_form }
{}

/// Other pages are written, and the page with the bits.
pub fn bits_are_written()
    ensures others { MidwayWritesAll packed_form }
    ensures their_page { MidwayWrittenAll packed_form }
{}

/// A crash in between leaves an image that is sound and holds the history before the commit, or after
/// it.
pub fn crashes_leave_either()
    ensures { MidwayLeaves packed_form }
{}
