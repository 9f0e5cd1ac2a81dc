//! Entries of a history that write no record: a begin, for which a number is drawn on the pages, and those
//! without pages.
//!
//! Owns: the law on a begin (`BeginsGoOn`), from what the engine knows once the draw has answered, and below it
//! what a draw of the transaction list makes of the pages, whatever transactions count as: a sound image
//! stays sound with its layout and reading (`DrawsStaySound`), the bits of those before stay, and those of the
//! number itself say nothing yet (`IsDrawn`); the law on idle entries, as a statement's begin, a mark or a
//! refusal (`IdleGoesOn`); and what the cache is after a rollback (`RollbackLastsOn`).
//!
//! All stands in `specs/`. There is no program here: each function does nothing, and its contract is a law.

ghost use Rattle.mg_image.specs.Form.{packed_form};
ghost use Rattle.mg_engine_step_laws.specs.commits.Begins.{BeginsGoOn, DrawsStaySound};
ghost use Rattle.mg_engine_step_laws.specs.commits.Idle.{IdleGoesOn, RollbackLastsOn};

use crate::standings_go_on;
use mg_base::Disk;
use mg_careful::Links;
use mg_image::one_reading;
use mg_model::histories_go_on;

/// A number that is drawn leaves each sound image sound.
pub fn draws_stay_sound<D: Disk, L: Links>()
    ensures { DrawsStaySound D L D.meaning packed_form }
{
    one_reading();
}

/// A begin takes an engine to the history with it.
pub fn begins_go_on<D: Disk, L: Links>()
    ensures { BeginsGoOn D L D.meaning packed_form }
{
    one_reading();
    histories_go_on();
    standings_go_on();
}

/// Entries without pages: idle ones take an engine on, and under a rollback its cache lasts on.
pub fn entries_go_on<D: Disk, L: Links>()
    ensures idle { IdleGoesOn D L D.meaning packed_form }
    ensures rollback { RollbackLastsOn D L D.meaning packed_form }
{
    histories_go_on();
    standings_go_on();
}
