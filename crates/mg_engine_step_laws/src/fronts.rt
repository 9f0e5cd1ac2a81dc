//! The data pages of tables go on where versions of records are written, as laws on pages.
//!
//! Owns: that each table of a layout has the data pages that it had, in their order, and more, after each kind of batch:
//! a version pushed (`PushesKeepPages`), a record's first one (`FirstsKeepPages`), an own one moved (`MovesKeepPages`),
//! each in the batch in which the table may get pages; one replaced in its cell (`ReplacementsKeepPages`), one taken out
//! (`TakingOutKeepsPages`); and over several batches (`PagesAreKeptOn`). A walk goes by this order.
//!
//! `specs/TablePages` has what counts, the other file proves it. There is no program here: the function does nothing,
//! and its contract is the laws.

ghost use Rattle.mg_engine_step_laws.specs.writes.WrittenTablePages.{FirstsKeepPages, MovesKeepPages, PagesAreKeptOn, PushesKeepPages};
ghost use Rattle.mg_engine_step_laws.specs.writes.WrittenTablePages.{ReplacementsKeepPages, TakingOutKeepsPages};
ghost use Rattle.mg_image.specs.Form.{packed_form};

use mg_image::one_reading;

/// Each table has the data pages that it had, in their order, and more, after each batch on a record.
pub fn tables_keep_pages()
    ensures pushes { PushesKeepPages packed_form }
    ensures firsts { FirstsKeepPages packed_form }
    ensures moves { MovesKeepPages packed_form }
    ensures replacements { ReplacementsKeepPages packed_form }
    ensures out { TakingOutKeepsPages packed_form }
    ensures on { PagesAreKeptOn }
{
    one_reading();
}
