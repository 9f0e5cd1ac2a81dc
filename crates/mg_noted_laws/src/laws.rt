//! What is proved of complete directories. Each function does nothing: its contract is a law.

ghost use Rattle.mg_noted_laws.specs.Statements.{BuiltAreComplete, DirectoriesTellSpeakers, EndsKeepThem, WritesKeepThem};

use mg_image::one_reading;
use mg_image_overlay_laws::sound_images_stand_one_way;
use mg_seek::records_are_those_of_every_reading;

/// Who speaks for a key is found among the candidates of a complete directory; and one pass over the
/// records of a table makes one.
pub fn a_directory_tells_who_speaks()
    ensures speakers { DirectoriesTellSpeakers }
    ensures built { BuiltAreComplete }
{
    records_are_those_of_every_reading();
}

/// Directories that were complete are so after a row was written and its record noted, and after
/// transactions ended that count no more; and any may be dropped.
pub fn directories_stay_complete()
    ensures writes { WritesKeepThem }
    ensures ends { EndsKeepThem }
{
    one_reading();
    sound_images_stand_one_way();
}
