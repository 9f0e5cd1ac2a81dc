//! The laws.

ghost use Rattle.mg_space.specs.FreePages.{TakingKeepsRegions};
ghost use Rattle.mg_no_damage_laws.specs.Inventory.{PagesAreTaken};
ghost use Rattle.mg_no_damage_laws.specs.Keyed.{LaterColumnsAllowNull, RowsAreKeyed, RowsFit, TablesAreKeyed};
ghost use Rattle.mg_no_damage_laws.specs.Keys.{KeysAreRead, ObstaclesAreRead, SpeakersAreRead, WaysAreRead};
ghost use Rattle.mg_no_damage_laws.specs.Order.{WalksAscend};
ghost use Rattle.mg_no_damage_laws.specs.Records.{ChainsAreWhole, RowsAreRead, VersionsAreThere};
ghost use Rattle.mg_no_damage_laws.specs.Sees.{PagesAreThere};
ghost use Rattle.mg_no_damage_laws.specs.Sound.{SoundRecordsAreLawful, SoundTablesStand};
ghost use Rattle.mg_no_damage_laws.specs.Standing.{LastsAreThere, StandsAreReached, StandsAreThere, StandsAreWalked};
ghost use Rattle.mg_no_damage_laws.specs.Tables.{PlacesAreKnown, TablesAreRead, VisitsAreMade, WalksAreWhole};

use mg_base::Disk;
use mg_heap::{tables_of_layouts_are_walked, walks_of_layouts_meet_no_damage};
use mg_rle::{one_plain_text, one_verdict};
use mg_seek::records_are_those_of_every_reading;

/// The pages of one table that stands are read, whatever else the pages hold.
pub fn stands_are_read<D: Disk>()
    ensures there { StandsAreThere D.meaning }
    ensures walked { StandsAreWalked D.meaning }
    ensures reached { StandsAreReached D.meaning }
    ensures lasts { LastsAreThere D.meaning }
{
    walks_of_layouts_meet_no_damage::<D>();
    tables_of_layouts_are_walked();
}

/// A data page of a table is there, and is one.
pub fn pages_are_there<D: Disk>()
    ensures { PagesAreThere D.meaning }
{
    walks_of_layouts_meet_no_damage::<D>();
}

/// The versions of a record are met by their links, and their bodies code rows of its table.
pub fn lawful_records_are_read<D: Disk>()
    ensures versions { VersionsAreThere D.meaning }
    ensures chains { ChainsAreWhole D.meaning }
    ensures rows { RowsAreRead D.meaning }
{
    walks_of_layouts_meet_no_damage::<D>();
    records_are_those_of_every_reading();
    one_plain_text();
    one_verdict();
}

/// The pages of a table are found, and all of its records are read.
pub fn lawful_tables_are_read<D: Disk>()
    ensures walks { WalksAreWhole D.meaning }
    ensures places { PlacesAreKnown D.meaning }
    ensures tables { TablesAreRead D.meaning }
    ensures visits { VisitsAreMade D.meaning }
{
    walks_of_layouts_meet_no_damage::<D>();
    tables_of_layouts_are_walked();
    records_are_those_of_every_reading();
    one_plain_text();
    one_verdict();
}

/// What a write finds at its key is read: the record that speaks for it, the row there, and who is in the way.
pub fn keys_are_read<D: Disk>()
    ensures ways { WaysAreRead D.meaning }
    ensures speakers { SpeakersAreRead D.meaning }
    ensures obstacles { ObstaclesAreRead D.meaning }
    ensures keys { KeysAreRead D.meaning }
{
    walks_of_layouts_meet_no_damage::<D>();
    tables_of_layouts_are_walked();
    records_are_those_of_every_reading();
    one_plain_text();
    one_verdict();
}

/// The records of a table come one behind another.
pub fn walks_ascend()
    ensures { WalksAscend }
{
    tables_of_layouts_are_walked();
}

/// A row of a table of a sound image has its key, and fits the table.
pub fn rows_are_keyed()
    ensures tables { TablesAreKeyed }
    ensures rows { RowsAreKeyed }
    ensures later { LaterColumnsAllowNull }
    ensures fit { RowsFit }
{}

/// The records of a sound image are lawful, and its tables stand.
pub fn sound_images_are_lawful()
    ensures records { SoundRecordsAreLawful }
    ensures tables { SoundTablesStand }
{}

/// A page is taken from lawful inventory pages, or none is free; and they are lawful then.
pub fn pages_are_taken()
    ensures taken { PagesAreTaken }
    ensures kept { TakingKeepsRegions }
{}
