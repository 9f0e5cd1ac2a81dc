//! What a history may begin with. The function does nothing: its contract is the law.

ghost use Rattle.mg_image.specs.Form.{packed_form, plain_form};
ghost use Rattle.mg_image_opening_laws.specs.Laws.{OpenedBegin, SoundHaveOpenings};

/// Each sound image gives a whole opening, in either form: a history may begin with whatever opening it
/// gives, be it sound or blank.
pub fn sound_images_have_openings()
    ensures packed { SoundHaveOpenings packed_form }
    ensures plain { SoundHaveOpenings plain_form }
    ensures packed_opened { OpenedBegin packed_form }
    ensures plain_opened { OpenedBegin plain_form }
{}
