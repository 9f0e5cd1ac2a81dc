//! A transaction was to be taken back, the call was refused in the middle, and so the transaction is rolled back.
//!
//! Owns: the laws on that rollback. In the middle some of its changes are taken back and others are not, so no history
//! tells what the pages show; but whatever they have of the transaction no longer counts once it is dead. Of each
//! record all others count what they counted at first (`DiesMidway`): its versions but for the transaction's own
//! newest one, and that is so whether the record is as it was, has its former version, or has lost it. So the records
//! have the versions of the history with the refused event and the rollback (`VersionsDieMidway`), the pages show that
//! history (`GivenUpIsShown`), and the engine stands for it (`EnginesGiveUp`).
//!
//! All stands in `specs/`: `Dying` and `GivenUp` have what counts, the other files prove it. There is no program here:
//! each function does nothing, and its contract is a law.

ghost use Rattle.mg_engine_change_laws.specs.given_up.Dying.{VersionsDieMidway};
ghost use Rattle.mg_engine_change_laws.specs.given_up.GivenUp.{EnginesGiveUp, GivenUpIsShown};

use mg_base::Disk;
use mg_careful::Links;
use mg_engine_step_laws::{
    batches_last, changes_are_taken_back, memory_follows, page_writes_go_on, standings_go_on,
    versions_go_on,
};
use mg_grown_catalog_laws::catalogs_grow;
use mg_image::one_reading;
use mg_model::histories_go_on;

/// What is read of the records where a transaction dies whose versions were taken out or replaced before, some of
/// them; and that the pages show the history with the rollback.
pub fn given_up_is_shown()
    ensures versions { VersionsDieMidway }
    ensures pages { GivenUpIsShown }
{
    one_reading();
    catalogs_grow();
    versions_go_on();
    memory_follows();
}

/// An engine stands for the history with the rollback.
pub fn engines_give_up<D: Disk, L: Links>()
    ensures { EnginesGiveUp D L D.meaning }
{
    given_up_is_shown();
    histories_go_on();
    standings_go_on();
    batches_last::<D, L>();
    changes_are_taken_back::<D, L>();
    page_writes_go_on::<D, L>();
}
