//! Whose table it is, by names. Each function's contract is the law.

ghost use Rattle.mg_image.specs.Form.{packed_form};
ghost use Rattle.mg_image_overlay_laws.specs.names.NamedTables.{NamesTellTables};

use mg_image::one_reading;

/// Names tell whose table it is.
pub fn names_tell_tables()
    ensures { NamesTellTables packed_form }
{
    one_reading();
}
