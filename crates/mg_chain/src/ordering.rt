//! The orders of page writes that a batch which writes versions needs.

ghost use Rattle.std.specs.Prelude.{◌≡◌, ◌++◌, ◌∷◌, [], Some, None, OnOk};
ghost use Rattle.mg_heap.specs.Growth.{AddsOrders};
ghost use Rattle.mg_pool.specs.Batch.{is_in};
ghost use Rattle.mg_chain.specs.Orders.{before_page, first_orders, move_orders, out_orders, push_orders, slot_orders, unchanged_page, version_orders};

use mg_base::{Memory, PageNo};
use mg_careful::Order;
use mg_pool::Batch;
use mg_version::Link;

/// Orders a page before another, but not before itself.
fn order_one(batch: &mut Batch, first: u32, later: PageNo) -> Result<(), Memory>
    ensures adds { OnOk result (AddsOrders batch.old batch.new (before_page (first ∷ []) later.0)) }
    ensures pages { batch.new.pages ≡ batch.old.pages }
{
    if first == later.0 {
        return Ok(());
    }
    batch.order(Order {
        first,
        later: later.0,
    })?;
    Ok(())
}

/// Orders pages before another, but not before itself.
pub(crate) fn order_before(batch: &mut Batch, firsts: &[u32], later: PageNo) -> Result<(), Memory>
    ensures adds { OnOk result (AddsOrders batch.old batch.new (before_page firsts.now later.0)) }
    ensures pages { batch.new.pages ≡ batch.old.pages }
{
    let mut rest = firsts;
    while let Some((first, more)) = rest.split_first() {
        order_one(batch, *first, later)?;
        rest = more;
    }
    Ok(())
}

/// Orders the page that a link leads to before another, unless the batch changes it: then either page
/// may come first, since the version stood there before the batch.
pub(crate) fn order_unchanged(
    batch: &mut Batch,
    back: Option<Link>,
    later: PageNo,
) -> Result<(), Memory>
    ensures adds { OnOk result (AddsOrders batch.old batch.new
        (before_page (unchanged_page batch.old.pages back) later.0)) }
    ensures pages { batch.new.pages ≡ batch.old.pages }
{
    let Some(link) = back else {
        return Ok(());
    };
    if is_changed(batch, link.rec.page) {
        return Ok(());
    }
    order_one(batch, link.rec.page.0, later)?;
    Ok(())
}

/// Tells whether a batch changes a page.
fn is_changed(batch: &Batch, page: PageNo) -> bool
    ensures { result ≡ is_in batch.now.pages page.0 }
{
    match batch.bytes(page) {
        Some(_) => true,
        None => false,
    }
}

/// The orders of a version that is put on a page.
fn order_version(batch: &mut Batch, page: PageNo, back: Option<Link>) -> Result<(), Memory>
    ensures adds { OnOk result (AddsOrders batch.old batch.new
        (version_orders batch.old.pages page.0 back)) }
    ensures pages { batch.new.pages ≡ batch.old.pages }
{
    order_one(batch, 0, page)?;
    order_unchanged(batch, back, page)?;
    Ok(())
}

/// The orders of a primary slot that comes to lead to a version on `page`.
fn order_slot(
    batch: &mut Batch,
    page: PageNo,
    slot_page: PageNo,
    pointers: &[u32],
) -> Result<(), Memory>
    ensures adds { OnOk result (AddsOrders batch.old batch.new
        (slot_orders page.0 slot_page.0 pointers.now)) }
    ensures pages { batch.new.pages ≡ batch.old.pages }
{
    order_before(batch, &[0, page.0], slot_page)?;
    order_before(batch, pointers, slot_page)?;
    Ok(())
}

/// The orders of a push.
pub(crate) fn order_push(
    batch: &mut Batch,
    page: PageNo,
    slot_page: PageNo,
    back: Option<Link>,
    pointers: &[u32],
) -> Result<(), Memory>
    ensures adds { OnOk result (AddsOrders batch.old batch.new
        (push_orders batch.old.pages page.0 slot_page.0 back pointers.now)) }
    ensures pages { batch.new.pages ≡ batch.old.pages }
{
    order_version(batch, page, back)?;
    order_slot(batch, page, slot_page, pointers)?;
    Ok(())
}

/// The orders of a first version.
pub(crate) fn order_first(
    batch: &mut Batch,
    page: PageNo,
    slot_page: PageNo,
    pointers: &[u32],
    slot_pointers: &[u32],
) -> Result<(), Memory>
    ensures adds { OnOk result (AddsOrders batch.old batch.new
        (first_orders batch.old.pages page.0 slot_page.0 pointers.now slot_pointers.now)) }
    ensures pages { batch.new.pages ≡ batch.old.pages }
{
    order_push(batch, page, slot_page, None, pointers)?;
    order_before(batch, slot_pointers, slot_page)?;
    Ok(())
}

/// The orders of a version that is moved to another cell.
pub(crate) fn order_move(
    batch: &mut Batch,
    page: PageNo,
    slot_page: PageNo,
    back: Option<Link>,
    pointers: &[u32],
    slot_pointers: &[u32],
    freed: PageNo,
) -> Result<(), Memory>
    ensures adds { OnOk result (AddsOrders batch.old batch.new
        (move_orders batch.old.pages page.0 slot_page.0 back pointers.now slot_pointers.now
        freed.0)) }
    ensures pages { batch.new.pages ≡ batch.old.pages }
{
    order_push(batch, page, slot_page, back, pointers)?;
    order_before(batch, slot_pointers, slot_page)?;
    // A crash may not leave a slot that leads to a cell which is gone.
    order_one(batch, slot_page.0, freed)?;
    Ok(())
}

/// The orders of a version that is taken out.
pub(crate) fn order_out(
    batch: &mut Batch,
    slot_page: PageNo,
    back: Option<Link>,
    slot_pointers: &[u32],
    freed: PageNo,
) -> Result<(), Memory>
    ensures adds { OnOk result (AddsOrders batch.old batch.new
        (out_orders batch.old.pages slot_page.0 back slot_pointers.now freed.0)) }
    ensures pages { batch.new.pages ≡ batch.old.pages }
{
    order_unchanged(batch, back, slot_page)?;
    order_before(batch, slot_pointers, slot_page)?;
    // A crash may not leave a slot that leads to a cell which is gone.
    order_one(batch, slot_page.0, freed)?;
    Ok(())
}
