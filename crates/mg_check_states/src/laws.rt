//! What holds of these rungs. The function does nothing: its contract is the law.

ghost use Rattle.mg_check_states.specs.States.{BacksLaw, DrawnLaw};

/// Nothing is found of the versions of a record exactly where each of them may stand; and of the back versions exactly
/// where each is of a committed transaction.
pub fn lawful_states_pass()
    ensures drawn { DrawnLaw }
    ensures backs { BacksLaw }
{}
