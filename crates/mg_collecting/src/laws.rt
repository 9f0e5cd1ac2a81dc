//! What versions in order are. The function does nothing: its contract is a law.

ghost use Rattle.mg_collecting.specs.Collecting.{OrderIsRead};

/// The versions of a record are in order as an image is read, and versions in order are read so.
pub fn versions_in_order_are_read()
    ensures { OrderIsRead }
{}
