//! The laws of index trees in overlays. Each function does nothing: its contract is the law.

ghost use Rattle.mg_tree_overlay_laws.specs.Laws.{BatchesChangeTrees, BatchesKeepTrees};
ghost use Rattle.mg_tree_overlay_laws.specs.Laws.{CoversBelow, CoversParent, FoundInLeaves, LeafHasFound};
ghost use Rattle.mg_tree_overlay_laws.specs.Laws.{LaidBatchesKeepTrees, LeavesAreFound, RemovedIsGone};
ghost use Rattle.mg_tree_overlay_laws.specs.Laws.{TreesStart, WritesKeepTrees};
ghost use Rattle.mg_tree_overlay_laws.specs.TreePages.{TreesAreLow, TreesAreOnce};

/// Where nothing is dirty there is one overlay, and its tree is the pool's; page writes keep the tree
/// of each overlay.
pub fn trees_start_and_stay()
    ensures start { TreesStart }
    ensures writes { WritesKeepTrees }
{}

/// A batch that changes an index keeps its tree in every overlay, and what is found in it.
pub fn batches_keep_trees()
    ensures overlays { BatchesKeepTrees }
    ensures image { LaidBatchesKeepTrees }
{}

/// The pool's own tree has the entries that it had and that are left, and the one that is added.
pub fn batches_change_trees()
    ensures changes { BatchesChangeTrees }
    ensures found { FoundInLeaves }
    ensures added { LeavesAreFound }
    ensures removed { RemovedIsGone }
{}

/// A page that covers an entry is the parent of the page below that covers it, and the leaf that covers
/// it has it, where the tree has it.
pub fn covering_pages()
    ensures parent { CoversParent }
    ensures fences { CoversBelow }
    ensures leaf { LeafHasFound }
{}

/// No page stands twice in a tree, and none has more than 17 levels.
pub fn trees_are_once_and_low()
    ensures once { TreesAreOnce }
    ensures low { TreesAreLow }
{}
