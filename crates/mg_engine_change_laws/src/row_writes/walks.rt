//! The walks of a transaction go on although others write, make or take out records of the table, as a law on pages.
//!
//! Owns: that a walk comes to the rows to which it was to come (`RowWalksGoOn`), where its table has the data pages that
//! it had, in their order, and more, and of each record the row counts that counted, with its key. A record may be new
//! or gone, and the slots of a page may have what they like: what is no primary slot has no versions, so a page gives
//! the rows of its records slot by slot, whatever it has in its slots.
//!
//! `specs/RowWalks` has what counts, the other files prove it. There is no program here: the function does nothing, and
//! its contract is the law.

ghost use Rattle.mg_engine_change_laws.specs.rows.RowWalks.{RowWalksGoOn};

/// A walk goes on over a table that shows its transaction the same.
pub fn row_walks_go_on()
    ensures { RowWalksGoOn }
{}
