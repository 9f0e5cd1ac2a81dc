//! The laws of indexes in overlays. Each function does nothing: its contract is the law.

ghost use Rattle.mg_image.specs.Form.{packed_form};
ghost use Rattle.mg_index_overlay_laws.specs.IndexOrders.{InsertionsBeginBeside, InsertionsCloseNoCycle};
ghost use Rattle.mg_index_overlay_laws.specs.Laws.{BatchesKeepIndexes, ChangesAreOf, ChangesJoin};
ghost use Rattle.mg_index_overlay_laws.specs.Laws.{IndexesStart, InsertionsChangeIndexes};
ghost use Rattle.mg_index_overlay_laws.specs.Laws.{OthersChangeBeside, OverlaysHaveTrees};
ghost use Rattle.mg_index_overlay_laws.specs.Laws.{RemovalsChangeIndexes, RowsStayFound};
ghost use Rattle.mg_index_overlay_laws.specs.Laws.{SoundHasIndexes, WritesKeepIndexes};

/// In a sound image the trees of all indexes stand and share no page, with each other or with the page
/// inventory; where nothing is dirty, each has its tree in every overlay.
pub fn sound_images_have_their_indexes()
    ensures image { SoundHasIndexes packed_form }
    ensures start { IndexesStart packed_form }
{}

/// Page writes keep each index in every overlay, and so does a batch that changes each by a row of
/// steps; an overlay has the trees that its layout wants.
pub fn every_overlay_has_its_indexes()
    ensures writes { WritesKeepIndexes }
    ensures batches { BatchesKeepIndexes }
    ensures trees { OverlaysHaveTrees }
{}

/// A record's row that is found in its table's indexes is found after a batch that leaves its entries,
/// in every overlay.
pub fn rows_are_found_in_overlays()
    ensures { RowsStayFound }
{}

/// An insertion into one index is a row of steps of each, and so is a removal, and so is a change of
/// pages beside all indexes.
pub fn batches_change_each_index()
    ensures insertions { InsertionsChangeIndexes }
    ensures removals { RemovalsChangeIndexes }
    ensures beside { OthersChangeBeside }
    ensures of { ChangesAreOf }
{}

/// Insertions into several indexes, one after another in one batch, close no cycle: the orders of each
/// begin beside all other indexes.
pub fn insertions_into_several_indexes_close_no_cycle()
    ensures begins { InsertionsBeginBeside }
    ensures no_cycle { InsertionsCloseNoCycle }
{}

/// One after another, in a batch that grows, such changes are one.
pub fn changes_are_joined()
    ensures { ChangesJoin }
{}
