//! What a transaction takes back, key by key: the cache of an engine in between, and at the end.
//!
//! Owns: the laws on a statement or a savepoint that is taken back while each key goes in a batch of its own.
//! In between the pages show changes of which no history tells, so what is known there is told by one that is
//! made up for it (`Again`): the transaction has taken all back, and gives again what is not taken back yet.
//! What an overlay has to be depends on a history through the database and the own changes alone (`Claims`).
//!
//! - At the beginning (`MidwaysBegin`), with all changes since the point still to take back.
//! - One key: its version is taken out where it had no change before (`KeysGoOut`), and replaced by the former one
//!   where it had (`KeysComeBack`).
//! - At the end (`MidwaysEnd`): the cache lasts with the history that has the entry.
//!
//! A crash in between leaves what the history before the entry has (`IsMidway`), and as if the transaction were
//! rolled back: so where a step is refused, the cache lasts with the history that has the refused event and the
//! rollback (`MidwaysAreGivenUp`).
//!
//! What the pages show goes the same way (`ShowsMidway`): at first what they showed (`ShowsFirst`), after each key
//! the record that speaks for it as the longer history says it (`ShowsOnward`), at the end that history
//! (`ShowsBack`). So the engine stands for it (`EnginesGoBack`).

ghost use Rattle.mg_engine_step_laws.specs.backs.Midway.{EnginesGoBack, KeysComeBack, KeysGoOut, MidwaysAreGivenUp};
ghost use Rattle.mg_engine_step_laws.specs.backs.Midway.{MidwaysBegin, MidwaysEnd};
ghost use Rattle.mg_engine_step_laws.specs.backs.Shown.{ShowsBack, ShowsFirst, ShowsOnward};
ghost use Rattle.mg_image.specs.Form.{packed_form};

use crate::{batches_last, entries_go_on, standings_go_on};
use mg_base::Disk;
use mg_careful::Links;
use mg_image::one_reading;
use mg_model::histories_go_on;

/// The cache lasts while changes are taken back, from the first key to the last.
pub fn changes_are_taken_back<D: Disk, L: Links>()
    ensures begin { MidwaysBegin packed_form D L D.meaning }
    ensures out { KeysGoOut packed_form D L D.meaning }
    ensures back { KeysComeBack packed_form D L D.meaning }
    ensures end { MidwaysEnd packed_form D L D.meaning }
    ensures given_up { MidwaysAreGivenUp packed_form D L D.meaning }
{
    one_reading();
    batches_last::<D, L>();
    entries_go_on::<D, L>();
}

/// The pages show what is taken back, from the first key to the last, and then the longer history.
pub fn pages_show_what_is_taken_back()
    ensures first { ShowsFirst packed_form }
    ensures onward { ShowsOnward packed_form }
    ensures back { ShowsBack packed_form }
{}

/// An engine stands for the history with the entry, once all is taken back.
pub fn engines_go_back<D: Disk, L: Links>()
    ensures { EnginesGoBack packed_form D L D.meaning }
{
    histories_go_on();
    standings_go_on();
}
