//! The walks of a transaction go on although others begin, end or write, as laws on what an engine has in memory and
//! on its pages.
//!
//! Owns: that an entry of another transaction changes nothing of whose versions one takes (`OthersTakeAlike`), and
//! that a walk comes to the rows to which it was to come, where its table stands as it did (`WalksGoAlike`), as it
//! does where no data page has changed (`WalksStayOver`).
//!
//! `specs/Alike` has what counts, the other files prove it. There is no program here: each function does nothing,
//! and its contract is a law.

ghost use Rattle.mg_engine_step_laws.specs.reads.Alike.{OthersTakeAlike, WalksGoAlike, WalksStayOver};

/// A transaction takes the versions of the same writers as before, whatever another one does.
pub fn others_take_alike()
    ensures { OthersTakeAlike }
{}

/// A walk goes on over a table that stands as it did; so it does where all data pages are as they were, and layout
/// and reading stay.
pub fn walks_go_alike()
    ensures alike { WalksGoAlike }
    ensures over { WalksStayOver }
{}
