//! The orders of an insertion beside those of a batch. The function does nothing: its contract is the
//! law.

ghost use Rattle.mg_btree.specs.Climbing.{ClosesNoCycle};

/// Where the orders of a batch close no cycle, and none of them begins at a page of a tree, they close
/// none after an entry was put into the tree: each order that is added leads up the tree or to the
/// left.
pub fn inserted_orders_close_no_cycle()
    ensures { ClosesNoCycle }
{}
