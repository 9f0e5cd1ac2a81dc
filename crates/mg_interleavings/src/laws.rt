//! What follows of the definitions. There is no program here: the functions do nothing, and their contracts are laws.

ghost use Rattle.mg_interleavings.specs.AnswerLaws.{AnswersAreEach, BegunAreNext};
ghost use Rattle.mg_interleavings.specs.HistoryLaws.{InterleavingsAreLegal};
ghost use Rattle.mg_interleavings.specs.OwnLaws.{BegunAreOwn};
ghost use Rattle.mg_interleavings.specs.PlaceLaws.{PlacesAreWithin};

/// The history is legal: each answer in it is the machine's, or comes from outside.
pub fn histories_are_legal()
    ensures { InterleavingsAreLegal }
{}

/// Each session is at a line of its script, or at its end.
pub fn places_are_within()
    ensures { PlacesAreWithin }
{}

/// Each session was answered once for each of its lines that it has passed, but for those that print nothing.
pub fn answers_are_each()
    ensures { AnswersAreEach }
{}

/// A statement that has begun is that of its session's next line, and no session has two.
pub fn begun_are_next()
    ensures { BegunAreNext }
{}

/// A statement that has begun is of the transaction that its session began last.
pub fn begun_are_own()
    ensures { BegunAreOwn }
{}
