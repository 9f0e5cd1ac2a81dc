//! A transaction's own versions in overlays: what a batch owes that replaces, moves or takes back a
//! version of its own transaction, or takes a dead one out, from the pool's change to every overlay.
//!
//! Owns: these batches as steps of pages, and the laws that each keeps what every overlay has to be.
//!
//! - A version is replaced in its cell by another one of its transaction that leads on as it did
//!   (`ReplacesPage`). One page, no order.
//! - It is replaced by one in another cell (`MovesPages`): the new cell is put, the slot turned, the old
//!   cell freed, in this order (`OrdersMove`).
//! - It is taken out of its record (`TakesOutPages`): the slot leads where the version led on, and then
//!   its cell is freed (`OrdersTakeOut`). Its transaction takes it back, or it is dead and goes by
//!   nobody's work.
//!
//! A writer that counts as dead changes no version that counts. An overlay may have, behind the version
//! of a record that the pool has alone, older ones: those show nothing, since the pool shows nothing of
//! the record and both hold the same rows (`Hidden`); so they may go with it. That the slot's page is
//! reached follows from the versions behind it, and where there is none it is ordered.
//!
//! All stands in `specs/`. Of records: `Overwrite`, `TakeOut`, `MoveRecords`. Of a record in pool and
//! overlay: `OwnVersion`, `OwnThere`, `Hidden`. Of one page: `SlotPart`, `FreePart`. Of a batch:
//! `ReplacePart`, `MovePart`, `BackPart`, and to every overlay `ReplaceEvery`, `MoveEvery`, `BackEvery`.

ghost use Rattle.mg_image.specs.Form.{packed_form};
ghost use Rattle.mg_image_overlay_laws.specs.records.BackEvery.{DeadOutKeeps, TakeBackKeeps};
ghost use Rattle.mg_image_overlay_laws.specs.records.MoveEvery.{MoveKeeps};
ghost use Rattle.mg_image_overlay_laws.specs.records.ReplaceEvery.{ReplaceKeeps};

use mg_image::one_reading;

/// A version is replaced in its place by another one of its transaction.
pub fn replacements_keep()
    ensures { ReplaceKeeps packed_form }
{
    one_reading();
}

/// A version is replaced by one of its transaction in another cell.
pub fn moves_keep()
    ensures { MoveKeeps packed_form }
{
    one_reading();
}

/// A transaction takes its version of a record back.
pub fn taking_back_keeps()
    ensures { TakeBackKeeps packed_form }
{
    one_reading();
}

/// A dead transaction's version is taken out of a record.
pub fn dead_versions_go()
    ensures { DeadOutKeeps packed_form }
{
    one_reading();
}
