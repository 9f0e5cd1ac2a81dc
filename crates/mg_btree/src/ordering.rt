//! Pages that are put, and the orders of their writes.

ghost use Rattle.std.specs.Prelude.{◌≡◌, ◌/◌, OnOk, length, true};
ghost use Rattle.mg_base.specs.Geometry.{is_page_size};
ghost use Rattle.mg_pip.specs.PipPage.{bits};
ghost use Rattle.mg_pool.specs.Batch.{PutsPage};
ghost use Rattle.mg_image.specs.Inventory.{inventory_page};
ghost use Rattle.mg_btree.specs.Ordering.{AddsOrders, PutsThree, Widens, orders_for, orders_to, root_orders, split_orders};

use crate::halves::PageBytes;
use mg_base::{Memory, PageNo};
use mg_careful::Order;
use mg_pool::Batch;
use mg_space::region_len;

/// The page inventory page that has the bit of a page, of any number.
fn inventory_page_of(size: u32, page: PageNo) -> PageNo
    requires { is_page_size size ≡ true }
    ensures { result.0 ≡ inventory_page size (page.0 / bits size) }
{
    let bits = region_len(size);
    PageNo(page.0 / bits * bits + 1)
}

/// Orders a page, and the inventory page with its bit, before a page that names it.
///
/// # Errors
///
/// `Memory` only. The batch may then have one of the two orders.
fn order_to(batch: &mut Batch, size: u32, n: PageNo, later: PageNo) -> Result<(), Memory>
    requires { is_page_size size ≡ true }
    ensures adds { OnOk result (AddsOrders batch.old batch.new (orders_to size n.0 later.0)) }
    ensures widens { Widens size batch.old batch.new }
{
    let bit = inventory_page_of(size, n);
    // A crash may not leave the name of a page that is not marked as used, or not made yet.
    batch.order(Order {
        first: bit.0,
        later: later.0,
    })?;
    batch.order(Order {
        first: n.0,
        later: later.0,
    })?;
    Ok(())
}

/// Orders pages, and the inventory pages with their bits, before a page that names them.
///
/// # Errors
///
/// `Memory` only. The batch may then have a part of the orders.
fn order_names(batch: &mut Batch, size: u32, names: &[PageNo], later: PageNo) -> Result<(), Memory>
    requires { is_page_size size ≡ true }
    ensures adds { OnOk result (AddsOrders batch.old batch.new
        (orders_for size names.now later.0)) }
    ensures widens { Widens size batch.old batch.new }
{
    let mut rest = names;
    while let Some((next, later_names)) = rest.split_first() {
        order_to(batch, size, *next, later)?;
        rest = later_names;
    }
    Ok(())
}

/// Adds the orders of a split: the right page `r` names the pages `names`, and the page `p` above
/// comes to name it.
///
/// # Errors
///
/// `Memory` only. The batch may then have a part of the orders.
pub(crate) fn order_split(
    batch: &mut Batch,
    size: u32,
    names: &[PageNo],
    at: SplitPages,
) -> Result<(), Memory>
    requires { is_page_size size ≡ true }
    ensures adds { OnOk result (AddsOrders batch.old batch.new
        (split_orders size names.now at.left.0 at.right.0 at.above.0)) }
    ensures widens { Widens size batch.old batch.new }
{
    order_names(batch, size, names, at.right)?;
    order_to(batch, size, at.right, at.left)?;
    order_to(batch, size, at.right, at.above)?;
    batch.order(Order {
        first: at.left.0,
        later: at.above.0,
    })?;
    Ok(())
}

/// The pages of a split: the one that splits, its new right neighbour, and the one above.
#[derive(Clone, Copy)]
pub(crate) struct SplitPages {
    pub left: PageNo,
    pub right: PageNo,
    pub above: PageNo,
}

/// Adds the orders of a root that splits: its halves `a` and `b` name the pages `left` and `right`.
///
/// # Errors
///
/// `Memory` only. The batch may then have a part of the orders.
pub(crate) fn order_root(
    batch: &mut Batch,
    size: u32,
    left: &[PageNo],
    right: &[PageNo],
    at: SplitPages,
) -> Result<(), Memory>
    requires { is_page_size size ≡ true }
    ensures adds { OnOk result (AddsOrders batch.old batch.new
        (root_orders size left.now right.now at.above.0 at.left.0 at.right.0)) }
    ensures widens { Widens size batch.old batch.new }
{
    order_names(batch, size, right, at.right)?;
    order_names(batch, size, left, at.left)?;
    order_to(batch, size, at.left, at.above)?;
    order_to(batch, size, at.right, at.above)?;
    Ok(())
}

/// Puts a page with its content.
///
/// # Errors
///
/// `Memory` only. The batch is then as before.
fn put_page(batch: &mut Batch, page: &PageBytes) -> Result<(), Memory>
    ensures puts { OnOk result (PutsPage batch.old batch.new page.now.page.0 page.now.bytes) }
    ensures widens { Widens (length page.now.bytes) batch.old batch.new }
{
    batch.put(page.page, page.bytes.as_slice())
}

/// Puts three pages, one after another.
///
/// # Errors
///
/// `Memory` only. The batch may then have some of them.
pub(crate) fn put_three(
    batch: &mut Batch,
    a: &PageBytes,
    b: &PageBytes,
    c: &PageBytes,
) -> Result<(), Memory>
    requires second { length b.now.bytes ≡ length a.now.bytes }
    requires third { length c.now.bytes ≡ length a.now.bytes }
    ensures puts { OnOk result (PutsThree batch.old batch.new a.now.page.0 b.now.page.0
        c.now.page.0 a.now.bytes b.now.bytes c.now.bytes) }
    ensures widens { Widens (length a.now.bytes) batch.old batch.new }
{
    put_page(batch, a)?;
    put_page(batch, b)?;
    put_page(batch, c)
}
