//! What holds of the rules in their order. The function does nothing: its contract is the law.

ghost use Rattle.mg_soundness.specs.Ladder.{LastIsSound};

use mg_image::one_reading;
use mg_reading::RowCoding;

/// An image meets the last of the rules, with all before it, exactly where it is sound.
pub fn the_last_rule_is_soundness(coding: RowCoding)
    ensures { LastIsSound coding }
{
    let _coding = coding;
    one_reading();
}
