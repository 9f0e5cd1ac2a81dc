//! What is found of records and keys, in every reading of an image, and what the history machine says of
//! it. Each function does nothing: its contract is a law.

ghost use Rattle.mg_seek.specs.Histories.{NothingIsThere, ObstaclesAreTold, RowsAreOfViews, SpeakersStand};
ghost use Rattle.mg_seek.specs.Readings.{KeysOfReadings, ObstaclesOfReadings, PlacesOfReadings, RowsOfReadings, SpeakersOfReadings};
ghost use Rattle.mg_seek.specs.Walks.{WalksInOrder, WalksShowViews};

use mg_generation_laws::{chains_tell, garbage_may_go};
use mg_image::one_reading;
use mg_snap::a_new_base_sees_what_has_ended;

/// What is found of a record is what its versions say in every reading of the image.
pub fn records_are_those_of_every_reading()
    ensures places { PlacesOfReadings }
    ensures rows { RowsOfReadings }
    ensures keys { KeysOfReadings }
    ensures speakers { SpeakersOfReadings }
    ensures obstacles { ObstaclesOfReadings }
{
    one_reading();
}

/// Where the versions of a key stand for those that a history says of it, what is found of the key is what
/// the history machine says: the row of the view, the obstacle, and which record speaks.
pub fn keys_are_those_of_the_history()
    ensures rows { RowsAreOfViews }
    ensures obstacles { ObstaclesAreTold }
    ensures nothing { NothingIsThere }
    ensures speakers { SpeakersStand }
{
    one_reading();
    chains_tell();
    garbage_may_go();
    a_new_base_sees_what_has_ended();
}

/// A walk comes to each record of a table once, and the rows that are seen on it are those of the view,
/// each once.
pub fn walks_are_whole()
    ensures order { WalksInOrder }
    ensures views { WalksShowViews }
{
    chains_tell();
}
