//! What has to be written before the orders of a batch can be entered without a cycle.

ghost use Rattle.std.specs.Prelude.{◌≡◌, ◌<◌, ◌≤◌, ◌↔◌, ℕ, true, false, IsTrue, IfSome, IfNone, None, OnOk, MatchResult, length, take, slice_index_or};
ghost use Rattle.mg_careful.specs.Precedence.{Precedes};
ghost use Rattle.mg_pool.specs.Batch.{IsDue, Leads, LeadsToDue, lists, order_at};
ghost use Rattle.mg_pool.specs.Change.{SettlesOrder, SettlesOrders, IsOpen, WritesDue};
ghost use Rattle.mg_pool.specs.Refusal.{FailsWrites};
ghost use Rattle.mg_pool.specs.Run.{HasWritten};
ghost use Rattle.mg_pool.specs.Pool.{IsPool};

use crate::fault::PoolFault;
use crate::pool::Pool;
use mg_base::Disk;
use mg_careful::{Links, Order};

impl<D: Disk, L: Links> Pool<D, L> {
    /// Writes what the orders of a batch want to be written before they are entered, one order
    /// after another.
    pub(crate) fn settle_orders(
        &mut self,
        orders: &Vec<Order>,
        due: &mut Vec<bool>,
    ) -> Result<(), PoolFault>
        requires pool { IsPool D.meaning self.old }
        requires online { self.old.offline ≡ None }
        requires due { length due.old.items ≡ length orders.now.items }
        requires acyclic { (page : ℕ) → Precedes (lists orders.now.items) page page → ⊥ }

        ensures settles { MatchResult result
            (λ _. SettlesOrders D.meaning orders.now.items self.old (length orders.now.items) self.new)
            (FailsWrites D.meaning self.old self.new) }
        ensures run { OnOk result (HasWritten D.meaning self.old self.new) }
        ensures open { OnOk result ((k : ℕ) → k < length orders.now.items
            → IsOpen self.new.graph orders.now.items k) }
    {
        for place in 0..orders.len() {
            self.settle_order(orders, due, place)?;
        }
        Ok(())
    }

    /// Writes what the order at a place wants to be written before it is entered.
    fn settle_order(
        &mut self,
        orders: &Vec<Order>,
        due: &mut Vec<bool>,
        place: usize,
    ) -> Result<(), PoolFault>
        requires pool { IsPool D.meaning self.old }
        requires online { self.old.offline ≡ None }
        requires due { length due.old.items ≡ length orders.now.items }
        requires acyclic { (page : ℕ) → Precedes (lists orders.now.items) page page → ⊥ }
        requires place { place < length orders.now.items }

        ensures due { length due.new.items ≡ length orders.now.items }
        ensures settles { MatchResult result
            (λ _. SettlesOrder D.meaning (take place orders.now.items)
            (order_at orders.now.items place) self.old self.new)
            (FailsWrites D.meaning self.old self.new) }
        ensures open { OnOk result (IsOpen self.new.graph orders.now.items place) }
    {
        let first = first_of(orders, place);
        self.mark_due(orders, due, place, first);
        if self.leads(orders, due, later_of(orders, place), first) {
            self.write_due(orders, due, first)?;
        }
        Ok(())
    }

    /// Writes every dirty page that precedes the goal, or is or precedes the first page of an order
    /// that is due.
    fn write_due(
        &mut self,
        orders: &Vec<Order>,
        due: &Vec<bool>,
        goal: u32,
    ) -> Result<(), PoolFault>
        requires pool { IsPool D.meaning self.old }
        requires online { self.old.offline ≡ None }
        requires due { length due.now.items ≡ length orders.now.items }

        ensures { MatchResult result
            (λ _. WritesDue D.meaning orders.now.items due.now.items goal self.old self.new)
            (FailsWrites D.meaning self.old self.new) }
    {
        self.write_predecessors(goal)?;
        for place in 0..orders.len() {
            if due[place] {
                self.write_with(first_of(orders, place))?;
            }
        }
        Ok(())
    }

    /// Marks those of the first `count` orders whose first page precedes the goal, by the pool's
    /// orders and these orders taken together.
    fn mark_due(&self, orders: &Vec<Order>, due: &mut Vec<bool>, count: usize, goal: u32)
        requires due { length due.old.items ≡ length orders.now.items }
        requires count { count ≤ length orders.now.items }
        ensures { IsDue self.now.graph orders.now.items count goal due.new.items }
    {
        clear(due);
        while let Some(place) = self.next_due(orders, due, count, goal) {
            due[place] = true;
        }
    }

    /// One of the first `count` orders that isn't marked, and whose later page leads to the goal.
    fn next_due(
        &self,
        orders: &Vec<Order>,
        due: &Vec<bool>,
        count: usize,
        goal: u32,
    ) -> Option<usize>
        requires due { length due.now.items ≡ length orders.now.items }
        requires count { count ≤ length orders.now.items }
        ensures some { IfSome result (λ i. (i < count)
            × (slice_index_or due.now.items i false ≡ false)
            × Leads self.now.graph orders.now.items due.now.items
            (order_at orders.now.items i).later goal) }
        ensures none { IfNone result ((i : ℕ) → i < count
            → Leads self.now.graph orders.now.items due.now.items
            (order_at orders.now.items i).later goal
            → slice_index_or due.now.items i false ≡ true) }
    {
        for place in 0..count {
            if !due[place] && self.leads(orders, due, later_of(orders, place), goal) {
                return Some(place);
            }
        }
        None
    }

    /// Tells whether a page is or precedes the goal, by the pool's orders and those that are due.
    fn leads(&self, orders: &Vec<Order>, due: &Vec<bool>, page: u32, goal: u32) -> bool
        requires due { length due.now.items ≡ length orders.now.items }
        ensures { IsTrue result ↔ Leads self.now.graph orders.now.items due.now.items page goal }
    {
        self.graph.would_cycle(goal, page) || self.leads_to_due(orders, due, page)
    }

    /// Tells whether a page is or precedes the first page of an order that is due.
    fn leads_to_due(&self, orders: &Vec<Order>, due: &Vec<bool>, page: u32) -> bool
        requires due { length due.now.items ≡ length orders.now.items }
        ensures { IsTrue result ↔ LeadsToDue self.now.graph orders.now.items due.now.items page }
    {
        for place in 0..orders.len() {
            if due[place] && self.graph.would_cycle(first_of(orders, place), page) {
                return true;
            }
        }
        false
    }
}

/// The first page of the order at a place.
pub(crate) fn first_of(orders: &Vec<Order>, place: usize) -> u32
    requires { place < length orders.now.items }
    ensures { result ≡ (order_at orders.now.items place).first }
{
    orders[place].first
}

/// The later page of the order at a place.
pub(crate) fn later_of(orders: &Vec<Order>, place: usize) -> u32
    requires { place < length orders.now.items }
    ensures { result ≡ (order_at orders.now.items place).later }
{
    orders[place].later
}

/// Takes every mark away.
fn clear(due: &mut Vec<bool>)
    ensures len { length due.new.items ≡ length due.old.items }
    ensures blank { (i : ℕ) → slice_index_or due.new.items i false ≡ false }
{
    for place in 0..due.len() {
        due[place] = false;
    }
}
