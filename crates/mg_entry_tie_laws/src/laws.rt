//! What insertions into indexes are to overlays and to free pages. Each function does nothing: its contract is the law.

ghost use Rattle.mg_image.specs.Form.{packed_form};
ghost use Rattle.mg_entry_tie_laws.specs.Laws.{InsertionsAreLawful, InsertionsAreThere, InsertionsKeep, InsertionsLay};
ghost use Rattle.mg_entry_tie_laws.specs.Laws.{InsertionsMeetNone, InsertionsTakeEighteen, InsertionsTakeFew};
ghost use Rattle.mg_entry_tie_laws.specs.Laws.{TablesHaveIndexes};
ghost use Rattle.mg_space.specs.FreePages.{TakingKeepsRegions};

use mg_btree::inserted_orders_close_no_cycle;

/// An insertion into an index is a batch of entries, so it keeps every overlay; and an index of a table is one for each
/// layout.
pub fn insertions_lay()
    ensures lay { InsertionsLay packed_form }
    ensures keep { InsertionsKeep packed_form }
    ensures indexes { TablesHaveIndexes packed_form }
{}

/// An insertion takes at most a page for each level, and two for the root: eighteen at most.
pub fn insertions_take_few()
    ensures few { TakingKeepsRegions → InsertionsTakeFew }
    ensures eighteen { TakingKeepsRegions → InsertionsTakeEighteen }
{}

/// The batch of an insertion is lawful; an insertion is refused for want of pages nowhere, where eighteen are free, and
/// meets no damage where the page inventory has none.
pub fn insertions_meet_none()
    ensures lawful { InsertionsAreLawful }
    ensures there { TakingKeepsRegions → InsertionsAreThere }
    ensures none { TakingKeepsRegions → InsertionsMeetNone }
{
    inserted_orders_close_no_cycle();
}
