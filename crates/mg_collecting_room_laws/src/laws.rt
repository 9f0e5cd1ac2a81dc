//! A collection takes no free page. The function does nothing: its contract is the law.

ghost use Rattle.mg_collecting_room_laws.specs.EveryRoom.{EveryTakesNone};
ghost use Rattle.mg_collecting_room_laws.specs.Room.{CollectionsTakeNone};

use mg_base::Disk;
use mg_no_damage_laws::pages_are_taken;

/// A record that is collected at a place takes no free page, made or refused.
pub fn collections_take_none<D: Disk>()
    ensures { CollectionsTakeNone D D.meaning }
{
    pages_are_taken();
}

/// The collection of every record of the committed tables takes no free page, made or refused.
pub fn every_takes_none<D: Disk>()
    ensures { EveryTakesNone D D.meaning }
{
    pages_are_taken();
}
