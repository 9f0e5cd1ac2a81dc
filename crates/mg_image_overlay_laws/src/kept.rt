//! What an overlay has to be as long as a history is under way, and that what becomes of transactions
//! keeps it.
//!
//! Owns: the definition (`IsKept`), and what follows from it. An overlay is sound where the chosen
//! transactions count as in limbo and the other active ones as dead; it is behind the pool's image
//! (`IsBehind`), and each of its index trees behind the pool's, which stays so as long as index pages
//! stay (`behind_stays`); of each record it has the versions that count in the pool, and may have older ones
//! behind them; and it holds the history's database, with the own changes of those who count as in
//! limbo. Every overlay is kept so (`EveryOverlay` of mg_overlay_laws, of `keeping`).
//!
//! Where nobody is chosen, and the bits say of each transaction what counts, the overlay of every
//! closed set is sound by its own bits and holds what outlasts a crash after the history's last
//! durable event (`HoldsAll`).
//!
//! The definitions stand in `specs/KeptImages`, `specs/HoldLaws` (what a crash leaves) and
//! `specs/CommitLaws` (what an entry of a history brings or leaves); `specs/KeptLaws` has what counts, and
//! the other files prove it. There is no program here: each function does nothing, and its contract is
//! a law.

ghost use Rattle.mg_image.specs.Form.{packed_form};
ghost use Rattle.mg_image_overlay_laws.specs.kept.KeptLaws.{BeginKeepsAll, ChosenIsReady, CommitKeepsAll};
ghost use Rattle.mg_image_overlay_laws.specs.kept.KeptLaws.{CrashesLeaveAll, RollbackKeepsAll, StartKeepsAll};
ghost use Rattle.mg_image_overlay_laws.specs.kept.KeptLaws.{WritesKeepAll};

/// Page writes keep what every overlay has to be.
pub fn page_writes_keep()
    ensures { WritesKeepAll packed_form }
{}

/// A sound image on which nobody works is the one overlay there is, and it is as it has to be.
pub fn overlays_start()
    ensures { StartKeepsAll packed_form }
{}

/// A transaction begins, or is rolled back.
pub fn active_ones_begin_and_end()
    ensures begins { BeginKeepsAll packed_form }
    ensures rolls_back { RollbackKeepsAll packed_form }
{}

/// A transaction whose pages are all on the disk is committed: every overlay holds its changes.
pub fn commits_keep()
    ensures { CommitKeepsAll packed_form }
{}

/// The overlay of every closed set holds the history, and with one chosen that needs no page any more
/// its changes, too.
pub fn crashes_leave()
    ensures nobody { CrashesLeaveAll packed_form }
    ensures chosen { ChosenIsReady packed_form }
{}
