//! The steps of index trees.

ghost use Rattle.mg_demand_laws.specs.NodeLaws.{NewNodePays, NodePays};
ghost use Rattle.mg_demand_laws.specs.RowTies.{RowsPay};
ghost use Rattle.mg_demand_laws.specs.TreeTies.{LeafPays, NamePays, RootPays, SplitPays};

/// An index page pays that is made, or comes to have another content: what it newly leads to comes before it.
pub fn nodes_pay()
    ensures made { NewNodePays }
    ensures changed { NodePays }
{}

/// The steps of a tree pay by their orders: a split, the entry for it on the page above, and a root that splits.
/// A leaf that changes in place costs nothing.
pub fn trees_pay()
    ensures split { SplitPays }
    ensures named { NamePays }
    ensures root { RootPays }
    ensures leaf { LeafPays }
{}

/// A row of steps pays, by the orders that an insertion adds for it.
pub fn tree_rows_pay()
    ensures { RowsPay }
{}
