//! Tables that grow, and new ones.

ghost use Rattle.mg_image.specs.Form.{packed_form};
ghost use Rattle.mg_demand_laws.specs.FillTies.{FillPays};
ghost use Rattle.mg_demand_laws.specs.KeepingTies.{MoveKeeps, NewsBear, OutKeeps, OverKeeps, PartKeeps, TablesBear};
ghost use Rattle.mg_demand_laws.specs.NumberTies.{CommitKeeps, DrawKeeps};
ghost use Rattle.mg_demand_laws.specs.OpenedChains.{OpenedTablesBear};
ghost use Rattle.mg_demand_laws.specs.OpenedTables.{OpenedIsOrderly, OrderStays};
ghost use Rattle.mg_demand_laws.specs.PartLaws.{PlacePays, RecordPays, RoomPays, VersionPays};
ghost use Rattle.mg_demand_laws.specs.UnmakingTies.{RowsBear};

use crate::{opened_images_bear, runs_bear, sound_images_are_linked, step_changes_bear};
use mg_base::Disk;
use mg_space::FireLinks;

/// A table's page with room, a place for a record, a record that is made there, and a version that is pushed pay for
/// what they newly want.
pub fn rooms_pay<D: Disk>()
    ensures room { RoomPays D FireLinks }
    ensures place { PlacePays D FireLinks }
    ensures made { RecordPays D FireLinks }
    ensures pushed { VersionPays D FireLinks }
{}

/// The batch of a new table pays for its first pointer page, and for each row of the catalog.
pub fn tables_pay<D: Disk>()
    ensures { FillPays D FireLinks }
{}

/// The cache's change of a batch that takes rows out, and pays row by row.
pub fn rows_bear<D: Disk>()
    ensures { RowsBear D FireLinks D.meaning }
{
    step_changes_bear::<D>()
}

/// Pointer pages are orderly where a sound image is opened, and stay so where none of them changes.
pub fn pointer_pages_stay_orderly()
    ensures opened { OpenedIsOrderly packed_form }
    ensures bears { OpenedTablesBear packed_form }
    ensures stays { OrderStays }
{
    sound_images_are_linked();
    opened_images_bear()
}

/// What a caller keeps from batch to batch: where the links are borne, pointer pages orderly and versions chained, they
/// are so behind each batch that pays, as those of tables and of versions do.
pub fn tables_bear<D: Disk>()
    ensures part { PartKeeps D FireLinks }
    ensures moved { MoveKeeps D FireLinks }
    ensures over { OverKeeps D FireLinks }
    ensures out { OutKeeps D FireLinks }
    ensures changed { TablesBear D FireLinks D.meaning }
    ensures news { NewsBear D FireLinks D.meaning }
{
    runs_bear()
}

/// So do a number that is drawn, and the bits of a commit.
pub fn numbers_bear<D: Disk>()
    ensures drawn { DrawKeeps }
    ensures committed { CommitKeeps D FireLinks D.meaning }
{}
