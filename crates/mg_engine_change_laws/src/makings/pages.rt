//! What comes of pages where a table is made. Each function's contract is the law.

ghost use Rattle.mg_engine_change_laws.specs.tables.Growth.{GrowthsStay};
ghost use Rattle.mg_engine_change_laws.specs.tables.StandMade.{LeftPagesAreThere};
ghost use Rattle.mg_image.specs.Form.{packed_form};

use mg_base::Disk;
use mg_engine_step_laws::{batches_last, lists_go_on, tips_stay};
use mg_image::one_reading;
use mg_image_overlay_laws::{owners_keep_stands_apart, sound_images_stand_one_way};
use mg_model::histories_go_on;
use mg_space::FireLinks;

/// The pages of all tables are there.
pub fn left_pages_are_there()
    ensures { LeftPagesAreThere packed_form }
{
    owners_keep_stands_apart();
}

/// A data page that the catalog gets changes nothing.
pub fn growths_stay<D: Disk>()
    ensures { GrowthsStay D D.meaning }
{
    histories_go_on();
    one_reading();
    sound_images_stand_one_way();
    tips_stay();
    lists_go_on::<D, FireLinks>();
    batches_last::<D, FireLinks>();
}
