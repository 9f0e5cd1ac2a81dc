//! Batches of records keep every overlay. Each function does nothing: its contract is the law.

ghost use Rattle.mg_image.specs.Form.{packed_form};
ghost use Rattle.mg_image_overlay_laws.specs.records.AddEvery.{AddKeeps};
ghost use Rattle.mg_image_overlay_laws.specs.records.PushEvery.{PushKeeps};

/// A record gets its first version.
pub fn first_versions_keep()
    ensures { AddKeeps packed_form }
{}

/// A version is pushed over a committed one.
pub fn pushes_keep()
    ensures { PushKeeps packed_form }
{}
