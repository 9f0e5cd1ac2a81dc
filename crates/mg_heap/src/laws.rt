//! What a sound image says of the walk. The functions do nothing: their contracts are the laws.

ghost use Rattle.mg_heap.specs.Stands.{TablesAreWalked, WalksMeetNoDamage};

use mg_base::Disk;

/// A table that stands somewhere in the layout of a sound image has these pointer pages and data
/// pages, and no others: it is the table that its first pointer page names.
pub fn tables_of_layouts_are_walked()
    ensures { TablesAreWalked }
{}

/// The walk of a table that stands in the layout of a sound image meets no damage, from a record to the
/// next one or over all its pages: `next` answers for it with a record, with none, or with a fault of
/// the cache.
pub fn walks_of_layouts_meet_no_damage<D: Disk>()
    ensures { WalksMeetNoDamage D.meaning }
{}
