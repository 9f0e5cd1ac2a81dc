//! The test of soundness as a whole.

ghost use Rattle.std.specs.Prelude.{◌≡◌, IfErr, IfOk, OnOk};
ghost use Rattle.mg_image.specs.Catalog.{catalog_table};
ghost use Rattle.mg_image.specs.Inventory.{header_of};
ghost use Rattle.mg_image.specs.Tables.{stands_of};
ghost use Rattle.mg_layout.specs.Standing.{layout_in};
ghost use Rattle.mg_reading.specs.ImageView.{pages_in};
ghost use Rattle.mg_soundness.specs.Joined.{AreTested};
ghost use Rattle.mg_soundness.specs.Ladder.{IsFirstBroken, IsSoundImage, IsStanding};
ghost use Rattle.mg_soundness.specs.Rungs.{HasReadingOf, IsFirstBrokenOf, MeetsIndexed};

use crate::indexed::are_all_indexed;
use crate::owners::have_own_tables;
use crate::records::{are_all_backs_committed, are_all_drawn, have_all_own_keys, read_tables};
use mg_image::one_reading;
use mg_layout::{Standing, are_pages_once, layout_of};
use mg_reading::{Image, ReadFault, RowCoding, Rule};
use std::alloc::Global;

/// Tests the rules of records, where the tables stand so.
///
/// # Errors
///
/// `Broken` with the first of these rules that is broken; `Memory`.
fn check_records(
    alloc: Global,
    image: &Image,
    coding: RowCoding,
    standing: &Standing,
) -> Result<(), ReadFault>
    requires catalog { (layout_in standing.now).catalog.table
        ≡ catalog_table (header_of (pages_in image.now)).catalog.0 }
    requires tested { AreTested image.now (stands_of (layout_in standing.now)) }
    ensures met { OnOk result
        (HasReadingOf MeetsIndexed coding image.now (layout_in standing.now)) }
    ensures broken { IfErr result (IsFirstBrokenOf coding image.now (layout_in standing.now)) }
{
    let records = read_tables(alloc, image, coding, standing)?;
    if !are_all_drawn(image, &records) {
        return Err(ReadFault::Broken(Rule::Drawn));
    }
    if !image.has_no_old_limbo() {
        return Err(ReadFault::Broken(Rule::Drawn));
    }
    if !have_own_tables(image, standing, &records) {
        return Err(ReadFault::Broken(Rule::Drawn));
    }
    if !are_all_backs_committed(image, &records) {
        return Err(ReadFault::Broken(Rule::Backs));
    }
    if !have_all_own_keys(image, standing, &records) {
        return Err(ReadFault::Broken(Rule::Keys));
    }
    if !are_all_indexed(alloc, image, standing, &records)? {
        return Err(ReadFault::Broken(Rule::Indexed));
    }
    Ok(())
}

/// Where the catalog and the tables of an image stand, where the rules up to that of pages reached
/// twice hold.
///
/// # Errors
///
/// `Broken` with the first of these rules that is broken; `Memory`.
fn check_pages(alloc: Global, image: &Image, coding: RowCoding) -> Result<Standing, ReadFault>
    ensures standing { IfOk result (λ standing.
        IsStanding coding image.now (layout_in standing)) }
    ensures broken { IfErr result (IsFirstBroken coding image.now) }
{
    if !image.has_header() {
        return Err(ReadFault::Broken(Rule::Header));
    }
    if !image.has_transactions() {
        return Err(ReadFault::Broken(Rule::Transactions));
    }
    let standing = layout_of(alloc, image, coding)?;
    if !are_pages_once(alloc, image, &standing)? {
        return Err(ReadFault::Broken(Rule::Once));
    }
    Ok(standing)
}

/// Tests whether an image is sound. It is plain and slow: it reads each page, record and index tree
/// that the image's catalog leads to.
///
/// # Errors
///
/// `Broken` with the first rule that the image breaks: those before it hold for some layout and
/// some reading, and with this one they hold for none; `Memory`, which says nothing of the image.
pub fn check_soundness(alloc: Global, image: &Image, coding: RowCoding) -> Result<(), ReadFault>
    ensures sound { OnOk result (IsSoundImage coding image.now) }
    ensures broken { IfErr result (IsFirstBroken coding image.now) }
{
    one_reading();
    let standing = check_pages(alloc, image, coding)?;
    check_records(alloc, image, coding, &standing)
}
