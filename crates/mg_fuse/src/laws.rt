//! What follows of the definitions. There is no program here: the function does nothing, and its contract is a law.

ghost use Rattle.mg_fuse.specs.Stopped.{StoppedDisksAreAskedForNoMore};

use crate::CountsWrites;

/// Over a run of any calls, a disk is asked for no more page writes than pass.
pub fn stopped_disks_are_asked_for_no_more<D: CountsWrites>()
    ensures { StoppedDisksAreAskedForNoMore D.meaning D.counts_to }
{}
