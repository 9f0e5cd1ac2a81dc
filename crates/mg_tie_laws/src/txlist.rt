//! What the transaction list gives to the laws on overlays. Each function does nothing: its contract is
//! the law.

ghost use Rattle.mg_image.specs.Form.{packed_form};
ghost use Rattle.mg_tie_laws.specs.CommitTies.{CommitRowKeeps};
ghost use Rattle.mg_tie_laws.specs.DrawTies.{DrawRowKeeps};

use mg_base::Disk;
use mg_careful::Links;

/// A number that is drawn keeps every overlay.
pub fn drawn_numbers_keep<D: Disk, L: Links>()
    ensures { DrawRowKeeps packed_form D L D.meaning }
{}

/// A commit keeps every overlay, while its bits are not written yet and afterwards.
pub fn commits_keep<D: Disk, L: Links>()
    ensures { CommitRowKeeps packed_form D L D.meaning }
{}
