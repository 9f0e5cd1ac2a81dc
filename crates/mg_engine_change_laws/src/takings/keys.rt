//! What stays and what goes on while a transaction is taken back, key after key, as laws on the pages of an engine.
//!
//! Owns, beside `undoing`, which takes an engine from the first key to the last:
//!
//! - `specs/BackPages`: each table has the data pages that it had, in their order, and more, over any number of keys
//!   (`KeysKeepPages`). The walks of others ask for it.
//! - `specs/BackWalks`: a walk of another transaction comes to the rows to which it was to come (`BackWalksGoOn`), also
//!   where the one that was being taken back then counts as dead (`GivenUpWalksGoOn`). Another one takes no version of an
//!   active one: so of a record whose newest version is taken out or replaced it is shown what it was shown.
//! - `specs/BackLists`: the pages of transactions stay, and tables stay plain (`KeysKeepLists`).
//! - `specs/BackEntries`: the entries of a row that comes back are laid, in some indexes of its table: no key more is taken
//!   back, the records are as they were, and the row is found there (`EntersMidway`).
//! - `specs/KeySteps`: what the core reads and changes for a key (a record that speaks for it, whose newest version is
//!   the transaction's own, and its version taken out, or the former one put in its place, in a batch of its own) is a
//!   step of `takings` (`KeyStepsAreTaken`). That the table may be written into, that the stored row codes the former
//!   one, and that it has its entries, it takes as known.
//! - `specs/Written`: a table which a transaction has kept as one that it has written into stands on the pages
//!   (`KeptTablesStand`), and the one that is kept under the number by which the transaction knows a table that it has
//!   changed has its name (`KeptTablesAreNamed`). Tables with one first page are one.
//! - `specs/BackTables`: a table in which a record has the transaction's own version may be written into by it
//!   (`ItsTablesMayBeWritten`). It asks for no history: the pages between two keys show none. A version of its own stands
//!   in a table only where a committed row of the catalog names the table, or a row that the transaction has made.
//! - `specs/BackStops`: it stops after some keys. Pages were read and then the step was refused, so that the transaction
//!   is rolled back: the engine stands for the history with the refused event and the rollback (`StopsAreGivenUp`). A
//!   page write failed: nothing is rolled back, memory stands for the history with the refused event, and every crash
//!   leaves what it has to (`WritesFailMidway`).
//!
//! The files `..Laws` (and `specs/OthersRows`) prove these. There is no program here: each function does nothing, and its
//! contract is a law.

ghost use Rattle.mg_engine_change_laws.specs.keys.BackLists.{KeysKeepLists};
ghost use Rattle.mg_engine_change_laws.specs.keys.BackPages.{KeysKeepPages};
ghost use Rattle.mg_engine_change_laws.specs.given_up.BackStops.{StopsAreGivenUp, WritesFailMidway};
ghost use Rattle.mg_engine_change_laws.specs.keys.BackTables.{ItsTablesMayBeWritten};
ghost use Rattle.mg_engine_change_laws.specs.keys.BackWalks.{BackWalksGoOn, GivenUpWalksGoOn};
ghost use Rattle.mg_engine_change_laws.specs.keys.KeySteps.{KeyStepsAreTaken};
ghost use Rattle.mg_engine_change_laws.specs.keys.Written.{KeptTablesAreNamed, KeptTablesStand};

use crate::row_writes::{row_walks_go_on, writes_keep_plain, writes_keep_tips};
use crate::{engines_give_up, its_records_are_found, keys_are_taken, keys_go_on};
use mg_base::Disk;
use mg_careful::Links;
use mg_engine_step_laws::{
    batches_last, changes_are_taken_back, page_writes_go_on, pages_show_what_is_taken_back,
    standings_go_on, tables_keep_pages, tips_stay,
};
use mg_entry_step_laws::entries_stay_midway;
use mg_image::one_reading;
use mg_image_overlay_laws::{names_tell_tables, sound_images_stand_one_way};
use mg_lasting_laws::{crashes_hold, pools_last};
use mg_model::histories_go_on;

/// The walks of others go on while a transaction is taken back, and where it is given up.
pub fn others_walk_on()
    ensures back { BackWalksGoOn }
    ensures given_up { GivenUpWalksGoOn }
{
    one_reading();
    sound_images_stand_one_way();
    row_walks_go_on();
}

/// What a step of the core tells of a key is a step of the laws.
pub fn key_steps_are_taken<D: Disk>()
    ensures { KeyStepsAreTaken D D.meaning }
{
    keys_are_taken();
    its_records_are_found();
}

/// A table that a transaction has kept for taking back is the one that stands on the pages.
pub fn kept_tables_stand()
    ensures stand { KeptTablesStand }
    ensures named { KeptTablesAreNamed }
{}

/// A table in which a record has a transaction's own version may be written into by it.
pub fn its_tables_may_be_written()
    ensures { ItsTablesMayBeWritten }
{
    one_reading();
    names_tell_tables();
}

/// The pages of transactions stay, and tables stay plain.
pub fn keys_keep_lists<D: Disk, L: Links>()
    ensures { KeysKeepLists D L D.meaning }
{
    one_reading();
    sound_images_stand_one_way();
    tips_stay();
    writes_keep_tips();
    writes_keep_plain();
    entries_stay_midway::<D, L>();
    batches_last::<D, L>();
    changes_are_taken_back::<D, L>();
    keys_go_on::<D, L>();
}

/// Each table has the data pages that it had, in their order, and more.
pub fn keys_keep_pages<D: Disk, L: Links>()
    ensures { KeysKeepPages D L D.meaning }
{
    one_reading();
    sound_images_stand_one_way();
    entries_stay_midway::<D, L>();
    batches_last::<D, L>();
    changes_are_taken_back::<D, L>();
    keys_go_on::<D, L>();
    tables_keep_pages();
}

/// After some keys, and some rows of the catalog, a step is refused, or a page write fails.
pub fn stops_go_on<D: Disk, L: Links>()
    ensures given_up { StopsAreGivenUp D L D.meaning }
    ensures failed { WritesFailMidway D L D.meaning }
{
    histories_go_on();
    standings_go_on();
    crashes_hold();
    pools_last::<D, L>();
    batches_last::<D, L>();
    keys_are_taken();
    keys_go_on::<D, L>();
    changes_are_taken_back::<D, L>();
    pages_show_what_is_taken_back();
    page_writes_go_on::<D, L>();
    engines_give_up::<D, L>();
}
