//! What is given back, in a history: the statements stand in `specs/Undo.antt` and
//! `specs/Machine.antt`. Each function does nothing: its contract is a law.

ghost use Rattle.mg_undo.specs.Undo.{RetractTakesKeepBack, GivesFirstChanges};
ghost use Rattle.mg_undo.specs.Machine.{NotesDeeds, GoesBackAsTheMachine, GivesWhatWas};

/// A change that is kept and then retracted leaves the changes and points that there were before.
pub fn a_retracted_change_was_not_kept()
    ensures { RetractTakesKeepBack }
{}

/// Taking back to a point gives each key that was changed since it once, with what was before its
/// first change, and the key that was changed first comes last.
pub fn taking_back_gives_first_changes()
    ensures { GivesFirstChanges }
{}

/// Where each change is kept with what the transaction's own changes had at its key, and each mark
/// and savepoint is set, the list says what a transaction did in the history machine.
pub fn the_list_follows_the_machine()
    ensures kept { NotesDeeds }
    ensures back { GoesBackAsTheMachine }
{}

/// What is given back is what the transaction's own changes were at the point gone back to, for each
/// key that was changed since.
pub fn what_was_is_given()
    ensures { GivesWhatWas }
{}
