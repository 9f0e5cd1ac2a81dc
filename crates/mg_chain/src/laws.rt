//! What chains of versions are in every reading of an image, and what the history machine says of them. Each function does nothing: its contract is a law.

ghost use Rattle.mg_chain.specs.Bases.{LiveBegins, LiveFollows};
ghost use Rattle.mg_chain.specs.Lists.{FreesSlot, MakesLists, MovesLists, OverwritesLists, PushesLists, PutsSpelled, TakesOutLists};
ghost use Rattle.mg_chain.specs.Views.{FoundIsShown, SeesItsView};

use mg_generation_laws::versions_show;

/// Where the versions of a record are those that a history says of a key, the one that a transaction
/// sees gives the row that its view has at the key.
pub fn a_transaction_sees_its_view()
    ensures view { SeesItsView }
    ensures row { FoundIsShown }
{
    versions_show();
}

/// A table of the transactions that have not ended, which follows the effects of a history, tells of
/// each active transaction which of the committed ones were so when it took its base.
pub fn bases_follow_the_machine()
    ensures begins { LiveBegins }
    ensures follows { LiveFollows }
{}

/// What is put by its bytes, or freed, is one cell that is changed.
pub fn cells_are_changed()
    ensures put { PutsSpelled }
    ensures freed { FreesSlot }
{}

/// In every reading of the cells: a first version makes a record with one version, and a push adds a
/// version in front; every other record has the versions that it had.
pub fn versions_are_added()
    ensures made { MakesLists }
    ensures pushed { PushesLists }
{}

/// In every reading of the cells in which no other version stands in its cell: the newest version of a
/// record is written over, or moved to another cell, or taken out; every other record has the versions
/// that it had.
pub fn newest_versions_are_changed()
    ensures overwritten { OverwritesLists }
    ensures moved { MovesLists }
    ensures taken_out { TakesOutLists }
{}
