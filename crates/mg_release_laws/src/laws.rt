//! What holds of released pages. Each function does nothing: its contract is the law.

ghost use Rattle.mg_image.specs.Form.{packed_form};
ghost use Rattle.mg_release_laws.specs.Released.{OpenedStays, SoundStays};
ghost use Rattle.mg_release_laws.specs.Written.{LeftIsSound, LeftOpens};

use mg_release::released_pages_are_orphans;

/// A sound image from which orphan pages are released is sound.
pub fn sound_images_stay()
    ensures { SoundStays packed_form }
{}

/// Opening it gives what it gave.
pub fn opened_images_stay()
    ensures { OpenedStays packed_form }
{}

/// Where the orphan pages of a sound image are released, each image that a crash leaves between the
/// page writes is sound, whichever of the changed pages have reached the disk.
pub fn sound_images_are_left()
    ensures { LeftIsSound packed_form }
{
    released_pages_are_orphans();
    sound_images_stay();
}

/// Opening it gives what it gave.
pub fn opened_images_are_left()
    ensures { LeftOpens packed_form }
{
    released_pages_are_orphans();
    opened_images_stay();
}
