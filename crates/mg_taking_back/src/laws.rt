//! Laws on the steps of taking back. The function does nothing: its contract is the laws.

ghost use Rattle.mg_taking_back.specs.Taking.{ComesToEnd, GivesOn};

/// Steps of taking back come to an end, and those that were made so far are the front of all.
pub fn steps_come_to_an_end()
    ensures go { GivesOn }
    ensures end { ComesToEnd }
{}
