//! Collection keeps every overlay. Each function does nothing: its contract is the law.

ghost use Rattle.mg_collect_overlay_laws.specs.SkipFree.{SkipsKeep};
ghost use Rattle.mg_collect_overlay_laws.specs.GonePart.{GoneKeeps};
ghost use Rattle.mg_image.specs.Form.{packed_form};

/// A committed version of a record comes to lead past some of those behind it, or nowhere, and cells of those are
/// freed.
pub fn collections_keep()
    ensures { SkipsKeep packed_form }
{}

/// A record goes that ends in a committed deletion.
pub fn gone_records_keep()
    ensures { GoneKeeps packed_form }
{}
