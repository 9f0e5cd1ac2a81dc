//! What follows of the changes, as the contracts of functions that do nothing.

ghost use Rattle.mg_node_writing.specs.ChangePromises.{FirstStays, TakenAfterSplit};

/// An inner page that has entries keeps its first one, whichever entry `insert` puts into it.
pub fn first_stays()
    ensures { FirstStays }
{}

/// An entry that `insert` takes is taken after `split` by the page where it belongs.
pub fn taken_after_split()
    ensures { TakenAfterSplit }
{}
