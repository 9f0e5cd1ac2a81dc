//! What a sound image holds. The function does nothing: its contract is the law.

ghost use Rattle.mg_image_overlay_laws.specs.kept.HeldLaws.{SoundHolds, SoundOpens};
ghost use Rattle.mg_image.specs.Form.{packed_form};

/// Each sound image holds a database, with the changes of its transactions in limbo: under a given state
/// of the transactions, and by its own bits.
pub fn sound_images_hold()
    ensures by_state { SoundHolds packed_form }
    ensures by_bits { SoundOpens packed_form }
{}
