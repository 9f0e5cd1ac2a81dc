//! What holds of pages that are released. The function does nothing: its contract is the law.

ghost use Rattle.mg_release.specs.Releasing.{OrphanLaw};

/// The pages of a list of orphan pages are those that are marked as used and that nothing reaches.
pub fn released_pages_are_orphans()
    ensures { OrphanLaw }
{}
