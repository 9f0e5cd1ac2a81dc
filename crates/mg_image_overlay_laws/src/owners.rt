//! Whose page it is. The function's contract is the law.

ghost use Rattle.mg_image.specs.Form.{packed_form};
ghost use Rattle.mg_image_overlay_laws.specs.tables.StandOwners.{OwnersKeepStandsApart};

/// Tables with different first pages share no page.
pub fn owners_keep_stands_apart()
    ensures { OwnersKeepStandsApart packed_form }
{}
