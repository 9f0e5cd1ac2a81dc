//! Sound images and the law of careful write.

ghost use Rattle.mg_image.specs.Form.{packed_form};
ghost use Rattle.mg_demand_laws.specs.Roots.{SoundIsLinked, SoundIsWanted};

use mg_careful::careful_write;
use mg_space::FireLinks;

/// A sound image is linked from its roots, where each pointer page that names a next one is full:
/// whatever its header, its transaction inventory pages, its tables, records and indexes lead to is
/// there, and marked as used; and versions are wanted of data pages alone.
pub fn sound_images_are_linked()
    ensures linked { SoundIsLinked packed_form }
    ensures wanted { SoundIsWanted packed_form }
{
    careful_write::<FireLinks>()
}
