//! What the verdicts are in a history: the statements stand in `specs/Machine.antt`. Each function
//! does nothing: its contract is a law.

ghost use Rattle.mg_waits.specs.Machine.{VerdictsAreTheMachines, NotesFollow, OthersNote, NobodyWaits};

/// Where the waits of a legal history are noted, the verdict on a transaction that is in the way
/// says what the history machine answers.
pub fn verdicts_are_the_machines()
    ensures { VerdictsAreTheMachines }
{}

/// The waits of a history are noted where each event of a transaction that is answered by a wait
/// notes that one, and any other event of it ends its wait.
pub fn notes_follow_the_machine()
    ensures none { NobodyWaits }
    ensures its { NotesFollow }
    ensures others { OthersNote }
{}
