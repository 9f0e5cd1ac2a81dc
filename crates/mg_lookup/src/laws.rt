//! What is promised of the records of a key, as the contract of a function that does nothing.

ghost use Rattle.mg_lookup.specs.Enough.{EntriesAreEnough};

/// Where each record of a table that speaks for a key has the key's entry in an index, the records that the entries of
/// the key name are enough candidates: who looks for the one that speaks among them finds it.
pub fn entries_are_enough()
    ensures { EntriesAreEnough }
{}
