//! What no two records of a table may have in common: a cell, and a key.

ghost use Rattle.std.specs.Prelude.{◌≡◌, ◌<◌, ◌↔◌, IsTrue, length};
ghost use Rattle.mg_reading.specs.Found.{AreApart, HasNoCellOf, HasNoKeyOf, HasOwnKey, HaveKeys, IsApart, SharesCell, ShowsRow, image_facts};
ghost use Rattle.mg_reading.specs.RecordParts.{TakeOneKey};
ghost use Rattle.mg_image.specs.RecordRules.{IsInLimbo, TakesKey};
ghost use Rattle.mg_image.specs.Records.{record_key};

use crate::found::Found;
use crate::image::Image;
use crate::reading::shown;
use crate::record::{have_same_value, stands};
use mg_base::TxState;
use mg_image::Entry;
use mg_model::Table;

/// Whether two records have a cell in common.
fn share_cell(a: &[Entry], b: &[Entry]) -> bool
    ensures { IsTrue result ↔ SharesCell a.now b.now }
{
    let mut rest = a;
    while let Some((entry, older)) = rest.split_first() {
        if stands(b, entry.at) {
            return true;
        }
        rest = older;
    }
    false
}

/// Whether two records are one where they have a cell in common.
fn is_apart(a: &Found, b: &Found) -> bool
    ensures { IsTrue result ↔ IsApart a.now b.now }
{
    if a.at == b.at {
        return true;
    }
    !share_cell(&a.entries, &b.entries)
}

/// Whether no other record has a cell of this one.
fn has_no_cell_of(found: &Found, others: &[Found]) -> bool
    ensures { IsTrue result ↔ HasNoCellOf found.now others.now }
{
    let mut rest = others;
    while let Some((other, later)) = rest.split_first() {
        if !is_apart(found, other) {
            return false;
        }
        rest = later;
    }
    true
}

/// Whether no two of these records have a cell in common.
pub(crate) fn are_apart(found: &[Found]) -> bool
    ensures { IsTrue result ↔ AreApart found.now }
{
    let mut rest = found;
    while let Some((first, later)) = rest.split_first() {
        if !has_no_cell_of(first, later) {
            return false;
        }
        rest = later;
    }
    true
}

/// Whether a record shows a row.
fn shows_row(image: &Image, entries: &[Entry]) -> bool
    ensures { IsTrue result ↔ ShowsRow (image_facts image.now) entries.now }
{
    match shown(image, entries) {
        Some(_) => true,
        None => false,
    }
}

/// Whether the newest version of a record is of a limbo transaction.
fn is_in_limbo(image: &Image, entries: &[Entry]) -> bool
    ensures { IsTrue result ↔ IsInLimbo (image_facts image.now) entries.now }
{
    let Some((newest, _)) = entries.split_first() else {
        return false;
    };
    image.state(newest.version.tx.0) == TxState::Limbo
}

/// Whether a record shows a row, or has a limbo version.
fn takes_key(image: &Image, entries: &[Entry]) -> bool
    ensures { IsTrue result ↔ TakesKey (image_facts image.now) entries.now }
{
    if shows_row(image, entries) {
        return true;
    }
    is_in_limbo(image, entries)
}

/// Whether two records, each with a version, have one key.
fn share_key(table: &Table, a: &[Entry], b: &[Entry]) -> bool
    requires first { 0 < length a.now }
    requires second { 0 < length b.now }
    ensures { IsTrue result ↔ (record_key table.now a.now ≡ record_key table.now b.now) }
{
    have_same_value(
        a[0].row.as_slice(),
        b[0].row.as_slice(),
        usize::from(table.shape.key),
    )
}

/// Whether two records take one key.
fn take_one_key(image: &Image, table: &Table, a: &[Entry], b: &[Entry]) -> bool
    ensures { IsTrue result ↔ TakeOneKey (image_facts image.now) table.now a.now b.now }
{
    if !takes_key(image, a) {
        return false;
    }
    if !takes_key(image, b) {
        return false;
    }
    share_key(table, a, b)
}

/// Whether two records are one where they take one key.
fn has_own_key(image: &Image, table: &Table, a: &Found, b: &Found) -> bool
    ensures { IsTrue result ↔ HasOwnKey (image_facts image.now) table.now a.now b.now }
{
    if a.at == b.at {
        return true;
    }
    !take_one_key(image, table, &a.entries, &b.entries)
}

/// Whether no other record takes the key of this one.
fn has_no_key_of(image: &Image, table: &Table, found: &Found, others: &[Found]) -> bool
    ensures { IsTrue result ↔ HasNoKeyOf (image_facts image.now) table.now found.now others.now }
{
    let mut rest = others;
    while let Some((other, later)) = rest.split_first() {
        if !has_own_key(image, table, found, other) {
            return false;
        }
        rest = later;
    }
    true
}

/// Whether no two of these records take one key.
pub(crate) fn have_keys(image: &Image, table: &Table, found: &[Found]) -> bool
    ensures { IsTrue result ↔ HaveKeys (image_facts image.now) table.now found.now }
{
    let mut rest = found;
    while let Some((first, later)) = rest.split_first() {
        if !has_no_key_of(image, table, first, later) {
            return false;
        }
        rest = later;
    }
    true
}
