//! What follows of the definitions.

ghost use Rattle.mg_transcript.specs.LegalLaws.{HistoriesAreLegal, CutHistoriesAreLegal};
ghost use Rattle.mg_transcript.specs.OwnEventLaws.{StatementsAreOwn, StepsAreOwn};
ghost use Rattle.mg_transcript.specs.SessionLaws.{BegunAreDrawn, BegunAreApart};

/// A script gives a legal history: each answer in it is the machine's, or comes from outside.
pub fn histories_are_legal()
    ensures whole { HistoriesAreLegal }
    ensures cut { CutHistoriesAreLegal }
{}

/// All events of a statement are of its transaction.
pub fn events_are_own()
    ensures statements { StatementsAreOwn }
    ensures steps { StepsAreOwn }
{}

/// What sessions have begun are different transactions, and their numbers were drawn before.
pub fn transactions_are_apart()
    ensures drawn { BegunAreDrawn }
    ensures apart { BegunAreApart }
{}
