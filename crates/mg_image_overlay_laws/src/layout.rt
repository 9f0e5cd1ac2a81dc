//! A sound image stands in one way, and says one thing: it has one layout and one reading at most,
//! whatever its transactions count as.
//!
//! Owns: the law (`StandsOneWay`), for images under a given state of the transactions. Two statements
//! that each name a layout and a reading of one image so speak of the same.
//!
//! All stands in `specs/`: `OneChain` for chains of pages, levels of trees and tables, `OneLayout` for
//! the catalog, the tables that it names, and the readings. There is no program here: the function's
//! contract is the law.

ghost use Rattle.mg_image.specs.Form.{packed_form};
ghost use Rattle.mg_image_overlay_laws.specs.tables.OneLayout.{StandsOneWay};

use mg_image::one_reading;

/// Two layouts with readings, under which an image is sound, are one.
pub fn sound_images_stand_one_way()
    ensures { StandsOneWay packed_form }
{
    one_reading();
}
