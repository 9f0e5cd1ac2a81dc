//! The laws.

ghost use Rattle.mg_no_damage_laws.specs.Batches.{PlacesAreTaken, PlacesHaveRoom, RecordsAreMade, VersionsArePushed, VersionsAreReplaced, VersionsAreTakenOut};
ghost use Rattle.mg_no_damage_laws.specs.Draws.{NumbersAreDrawn};
ghost use Rattle.mg_no_damage_laws.specs.Writes.{BackOutsAreFilled, BackOutsGoOn, PushesAreFilled, ReplacementsAreFilled, RoomIsFound, SpotsAreGiven};

use crate::{lawful_records_are_read, pages_are_taken, sound_images_are_lawful, stands_are_read};
use mg_base::Disk;
use mg_image::one_reading;

/// A page with room is found in a table, or is made.
pub fn rooms_are_found<D: Disk>()
    ensures room { RoomIsFound D.meaning }
    ensures spots { SpotsAreGiven D.meaning }
{
    stands_are_read::<D>();
    pages_are_taken();
    one_reading();
}

/// A version is pushed over the newest one of a record.
pub fn versions_are_pushed<D: Disk>()
    ensures { PushesAreFilled D.meaning }
{
    stands_are_read::<D>();
    pages_are_taken();
    one_reading();
}

/// The newest version of a record is taken out, or replaced by another one of its transaction.
pub fn newest_versions_change<D: Disk>()
    ensures outs { BackOutsAreFilled D.meaning }
    ensures replaced { ReplacementsAreFilled D.meaning }
{
    stands_are_read::<D>();
    pages_are_taken();
    one_reading();
    lawful_records_are_read::<D>();
    sound_images_are_lawful();
}

/// The newest version of a record is taken out in a batch that has something, as long as the pages are sound with it.
pub fn versions_go_out<D: Disk>()
    ensures { BackOutsGoOn D.meaning }
{
    stands_are_read::<D>();
    pages_are_taken();
    one_reading();
    lawful_records_are_read::<D>();
    sound_images_are_lawful();
}

/// A record is made: a place is taken, and then the version is put and the slot turned to it.
pub fn records_are_made<D: Disk>()
    ensures places { PlacesAreTaken D.meaning }
    ensures room { PlacesHaveRoom D.meaning }
    ensures made { RecordsAreMade D.meaning }
{
    stands_are_read::<D>();
    pages_are_taken();
    one_reading();
}

/// The newest version of a record changes: another one is pushed over it, it is replaced, or it is taken out.
pub fn records_change<D: Disk>()
    ensures pushed { VersionsArePushed D.meaning }
    ensures replaced { VersionsAreReplaced D.meaning }
    ensures out { VersionsAreTakenOut D.meaning }
{
    stands_are_read::<D>();
    pages_are_taken();
    one_reading();
    lawful_records_are_read::<D>();
    sound_images_are_lawful();
}

/// The next number of the header is drawn.
pub fn numbers_are_drawn<D: Disk>()
    ensures { NumbersAreDrawn D.meaning }
{
    pages_are_taken();
}
