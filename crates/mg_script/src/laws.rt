//! What follows of the definitions.

ghost use Rattle.mg_script.specs.Laws.{LinesSayOneThing};

/// A line is of one form, and says one thing.
pub fn lines_say_one_thing()
    ensures { LinesSayOneThing }
{}
