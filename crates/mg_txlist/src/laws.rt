//! What a list says of an image. The function does nothing: its contract is the law.

ghost use Rattle.mg_txlist.specs.Laws.{LoadedSays};

/// A list that was loaded says of each number what the bits of the image say, and the image's next
/// number.
pub fn loaded_lists_say_what_images_say()
    ensures { LoadedSays }
{}
