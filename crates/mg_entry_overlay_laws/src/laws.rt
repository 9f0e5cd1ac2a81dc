//! The laws of index entries in overlays. Each function does nothing: its contract is the law.

ghost use Rattle.mg_image.specs.Form.{packed_form};
ghost use Rattle.mg_entry_overlay_laws.specs.Laws.{EntriesKeep, EntriesShow, OtherTreesAreSound};

/// A batch that lays entries keeps every overlay; and of a sound image it exchanges the trees, and no more.
pub fn entry_batches_keep()
    ensures keep { EntriesKeep packed_form }
    ensures show { EntriesShow packed_form }
{}

/// A sound image whose tables stay is sound with other trees that stand in it and find what was found.
pub fn other_trees_are_sound()
    ensures { OtherTreesAreSound packed_form }
{}
