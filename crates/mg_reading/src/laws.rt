//! What holds of the plain reading. Each function does nothing: its contract is the law.

ghost use Rattle.mg_reading.specs.SoundTables.{SoundIsReadable};

use crate::rows::RowCoding;

/// A sound image has all that a reading of its tables needs, so it is refused for want of memory
/// alone.
pub fn sound_images_are_read(coding: RowCoding)
    ensures { SoundIsReadable coding }
{
    let _coding = coding;
}
