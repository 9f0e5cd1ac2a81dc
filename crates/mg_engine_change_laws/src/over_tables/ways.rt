//! Memory, walks and the batches in which the rows of the catalog go. Each function does nothing: its contract is the law.

ghost use Rattle.mg_engine_change_laws.specs.tables_back.CoreRows.{CoresTakeRows};
ghost use Rattle.mg_engine_change_laws.specs.tables_back.TablesMemory.{TablesFollow};
ghost use Rattle.mg_engine_change_laws.specs.tables_back.TablesWalks.{TablesWalksGoOn};

use crate::row_walks_go_on;
use mg_base::Disk;
use mg_engine_step_laws::{left_tables_are_seen, rows_go_on};
use mg_image_overlay_laws::sound_images_stand_one_way;
use mg_space::FireLinks;
use mg_undo::the_list_follows_the_machine;

/// Memory follows the entry by which a transaction is taken back, with tables that it had made.
pub fn tables_follow()
    ensures { TablesFollow }
{
    the_list_follows_the_machine();
    left_tables_are_seen();
}

/// The walks of all others go on where rows of the catalog go with their tables.
pub fn tables_walks_go_on()
    ensures { TablesWalksGoOn }
{
    sound_images_stand_one_way();
    row_walks_go_on();
}

/// What the core takes out of the catalog is what the laws take out of it.
pub fn cores_take_rows<D: Disk>()
    ensures { CoresTakeRows D D.meaning }
{
    rows_go_on::<D, FireLinks>();
}
