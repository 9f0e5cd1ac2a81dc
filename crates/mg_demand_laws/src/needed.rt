//! The laws.

ghost use Rattle.mg_demand_laws.specs.Needed.{LeavingOrdersAreNeeded, OrdersAreNeeded};

use mg_careful::Links;

/// An order that is left out leaves a crash image whose links lead to nothing: that of a page before one that comes
/// to lead to it, and that of a page that led to a thing before one that no longer has it. It does nothing: its
/// contract is the law.
pub fn orders_are_needed<L: Links>()
    ensures ahead { OrdersAreNeeded L.demands_of L.meets_of }
    ensures behind { LeavingOrdersAreNeeded L.demands_of L.meets_of }
{}
