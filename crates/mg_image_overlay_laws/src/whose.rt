//! Rows of tables that their own transaction has made and not committed, as the laws on overlays take them.
//!
//! Owns: whose table it is, said once (`IsTableFor`): under each choice of transactions the table stands in the
//! layout, or its maker counts as dead and none of its pages is one of the layout's (`IsNotThere`). The laws on
//! writes are here under that condition: where the table stands they are those of the crates below; where it
//! does not, only pages change that no table of the layout has (`OutSteps`). So one law serves the catalog,
//! committed tables and those that the writer itself has made.
//!
//! All stands in `specs/`. There is no program here.

ghost use Rattle.mg_image.specs.Form.{packed_form};
ghost use Rattle.mg_image_overlay_laws.specs.tables.BackFor.{TakeBackKeepsFor};
ghost use Rattle.mg_image_overlay_laws.specs.tables.FirstFor.{AddKeepsFor};
ghost use Rattle.mg_image_overlay_laws.specs.tables.GrowthFor.{GrowthKeepsFor};
ghost use Rattle.mg_image_overlay_laws.specs.tables.MoveFor.{MoveKeepsFor};
ghost use Rattle.mg_image_overlay_laws.specs.tables.PushFor.{PushKeepsFor};
ghost use Rattle.mg_image_overlay_laws.specs.tables.ReplaceFor.{ReplaceKeepsFor};

use mg_image::one_reading;

/// A table that some layouts have gets pages, by nobody's work.
pub fn growth_keeps_for()
    ensures { GrowthKeepsFor packed_form }
{
    one_reading();
}

/// A record gets its first version.
pub fn first_versions_keep_for()
    ensures { AddKeepsFor packed_form }
{
    one_reading();
}

/// A version is pushed over a committed one.
pub fn pushes_keep_for()
    ensures { PushKeepsFor packed_form }
{
    one_reading();
}

/// An own version is replaced by one in another cell.
pub fn moves_keep_for()
    ensures { MoveKeepsFor packed_form }
{
    one_reading();
}

/// An own version is replaced in its cell.
pub fn replacements_keep_for()
    ensures { ReplaceKeepsFor packed_form }
{
    one_reading();
}

/// An own version is taken back.
pub fn taking_back_keeps_for()
    ensures { TakeBackKeepsFor packed_form }
{
    one_reading();
}
