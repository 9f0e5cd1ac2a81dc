//! What holds of layouts. Each function does nothing: its contract is the law.

ghost use Rattle.mg_layout.specs.LayoutLaws.{HasOneLayout};

use mg_image::one_reading;
use mg_reading::RowCoding;

/// The catalog and the tables of an image stand in one way at most.
pub fn one_layout(coding: RowCoding)
    ensures { HasOneLayout coding }
{
    one_reading();
}
