//! The careful-write law as the cache's own promise.

ghost use Rattle.mg_pool.specs.Law.{StartsCareful, LeavesSafe, WritesStayCareful, ChangesStayCareful, WritesForCause, JoinsRuns, QuietLeaves};

use mg_base::Disk;
use mg_careful::{Links, careful_write};

/// The careful-write law, as a cache keeps it. `BearsDemands` is the one invariant that a writer
/// keeps, from call to call: the pages of the disk and of the pool each keep a set of demands, and
/// the orders bear what is not yet on the disk.
///
/// - Where no page is dirty, he bears the demands of every set that the disk's image keeps.
/// - Where he bears the demands, the overlay of every closed set is safe, then and after each later
///   page write, those that the next change makes first included.
/// - After page writes he bears them still.
/// - After a change he bears them, if the batch bears its own: what it states of its pages, and what
///   the disk still demands of them. A link that stood before costs no order; on a page that the
///   batch leaves alone it costs nothing, unless it leads to a page of the batch, which has then to
///   have what is wanted still.
///
/// A change writes pages for a cause alone: to break a cycle of orders, or to make room.
///
/// It does nothing: its contract is the law, so that a crate that orders its page writes can cite
/// it. That `Pool::write_one` and the page writes of a change are runs of page writes, and that a
/// change is one as `batch` takes it, their own clauses say.
pub fn stays_careful<D: Disk, L: Links>()
    ensures starts { StartsCareful D L L.demands_of L.meets_of }
    ensures safe { LeavesSafe D L D.meaning L.demands_of L.meets_of }
    ensures writes { WritesStayCareful D L D.meaning L.demands_of L.meets_of }
    ensures batch { ChangesStayCareful D L D.meaning L.demands_of L.meets_of }
    ensures causes { WritesForCause D L D.meaning }
    ensures joins { JoinsRuns D L D.meaning }
    ensures quiet { QuietLeaves D L D.meaning }
{
    careful_write::<L>()
}
