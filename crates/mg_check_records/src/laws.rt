//! What holds of walks. The function does nothing: its contract is the law.

ghost use Rattle.mg_check_records.specs.WalkLaws.{WalkLaw};

/// A walk comes over versions that are stored as their table wants it, that were not met before, and
/// none of which stands twice; to the end of a chain it comes over all of it.
pub fn walks_are_over_records()
    ensures { WalkLaw }
{}
