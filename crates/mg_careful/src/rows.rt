//! Square tables of bits, a row for each place: a relation between places, and its closure.

ghost use Rattle.std.specs.Prelude.{◌≡◌, ◌<◌, ◌+◌, ℕ, false, ◌||◌, ◌&&◌, ◌==◌, not, [], length, replicate, slice_index_or, slice_set, IfOk};
ghost use Rattle.mg_careful.specs.Rows.{bit, IsSquare, IsClosure, with_closed, without, orders_until, is_blank};

use crate::bits::Bits;
use mg_base::Memory;
use std::alloc::Global;

/// A table of `size` rows without a bit that is set.
pub fn blank_rows(alloc: Global, size: usize) -> Result<Vec<Bits>, Memory>
    ensures { IfOk result (λ rows. rows.items ≡ replicate size (replicate size false)) }
{
    let mut rows = Vec::new(alloc);
    for _ in 0..size {
        rows.push(Bits::blank(alloc, size)?)?;
    }
    Ok(rows)
}

/// Takes a member out of a relation: its row and its column are unset.
pub fn clear_member(rows: &mut Vec<Bits>, size: usize, gone: usize)
    requires square { IsSquare size rows.old.items }
    requires inside { gone < size }
    ensures square { IsSquare size rows.new.items }
    ensures bits { (a b : ℕ) → bit rows.new.items a b ≡ without (bit rows.old.items) gone a b }
{
    let row = &mut rows[gone];
    row.clear();
    for i in 0..size {
        let row = &mut rows[i];
        row.put(gone, false);
    }
}

/// Adds to a closure what one more order closes. `row` is a row to work in.
pub fn close(after: &mut Vec<Bits>, row: &mut Bits, size: usize, first: usize, later: usize)
    requires square { IsSquare size after.old.items }
    requires row { length row.old ≡ size }
    requires first { first < size }
    requires later { later < size }
    ensures square { IsSquare size after.new.items }
    ensures row { length row.new ≡ size }
    ensures bits { (a b : ℕ) → bit after.new.items a b
        ≡ with_closed (bit after.old.items) first later a b }
{
    row.overwrite(&after[later]);
    row.put(later, true);
    join_into(after, row, size, first);
}

/// Joins a row into that of `first` and of each member from which the relation leads to `first`.
fn join_into(after: &mut Vec<Bits>, row: &Bits, size: usize, first: usize)
    requires square { IsSquare size after.old.items }
    requires row { length row.now ≡ size }
    requires first { first < size }
    ensures square { IsSquare size after.new.items }
    ensures bits { (a b : ℕ) → bit after.new.items a b ≡ (bit after.old.items a b
        || ((a == first || bit after.old.items a first) && slice_index_or row.now b false)) }
{
    for i in 0..size {
        if is_or_leads(after, size, i, first) {
            let reached = &mut after[i];
            reached.join(row);
        }
    }
}

/// Tells whether a member is another one, or the closure leads from it to that one.
pub fn is_or_leads(after: &Vec<Bits>, size: usize, from: usize, to: usize) -> bool
    requires square { IsSquare size after.now.items }
    requires from { from < size }
    requires to { to < size }
    ensures { result ≡ (from == to || bit after.now.items from to) }
{
    from == to || is_set(after, size, from, to)
}

/// Sets the bit of a row at a column.
pub fn set_bit(rows: &mut Vec<Bits>, size: usize, row: usize, column: usize)
    requires square { IsSquare size rows.old.items }
    requires row { row < size }
    requires column { column < size }
    ensures square { IsSquare size rows.new.items }
    ensures bits { (a b : ℕ) → bit rows.new.items a b
        ≡ (bit rows.old.items a b || (b == column && a == row)) }
{
    let row = &mut rows[row];
    row.put(column, true);
}

/// Unsets every bit of a row.
pub fn clear_row(rows: &mut Vec<Bits>, size: usize, row: usize)
    requires square { IsSquare size rows.old.items }
    requires row { row < size }
    ensures square { IsSquare size rows.new.items }
    ensures bits { (a b : ℕ) → bit rows.new.items a b ≡ (bit rows.old.items a b && not (a == row)) }
{
    let row = &mut rows[row];
    row.clear();
}

/// Tells whether no bit of a row is set.
pub fn is_row_blank(rows: &Vec<Bits>, size: usize, row: usize) -> bool
    requires square { IsSquare size rows.now.items }
    requires row { row < size }
    ensures { result ≡ is_blank (slice_index_or rows.now.items row []) }
{
    rows[row].is_blank()
}

/// The bit of a row at a column.
pub fn is_set(rows: &Vec<Bits>, size: usize, row: usize, column: usize) -> bool
    requires square { IsSquare size rows.now.items }
    requires row { row < size }
    requires column { column < size }
    ensures { result ≡ bit rows.now.items row column }
{
    rows[row].get(column)
}

/// Computes the closure of a table of orders anew. `row` is a row to work in.
pub fn close_all(before: &Vec<Bits>, after: &mut Vec<Bits>, row: &mut Bits, size: usize)
    requires before { IsSquare size before.now.items }
    requires after { IsSquare size after.old.items }
    requires row { length row.old ≡ size }
    ensures square { IsSquare size after.new.items }
    ensures row { length row.new ≡ size }
    ensures closure { IsClosure (λ a b. bit before.now.items b a) (bit after.new.items) }
{
    clear_all(after, size);
    for later in 0..size {
        close_row(before, after, row, size, later);
    }
}

/// Unsets every bit of a table.
fn clear_all(rows: &mut Vec<Bits>, size: usize)
    requires square { IsSquare size rows.old.items }
    ensures square { IsSquare size rows.new.items }
    ensures bits { (a b : ℕ) → bit rows.new.items a b ≡ false }
{
    for i in 0..size {
        let row = &mut rows[i];
        row.clear();
    }
}

/// Takes the orders of one row into a closure.
fn close_row(before: &Vec<Bits>, after: &mut Vec<Bits>, row: &mut Bits, size: usize, later: usize)
    requires before { IsSquare size before.now.items }
    requires after { IsSquare size after.old.items }
    requires row { length row.old ≡ size }
    requires later { later < size }
    requires closure { IsClosure (orders_until before.now.items later 0) (bit after.old.items) }
    ensures square { IsSquare size after.new.items }
    ensures row { length row.new ≡ size }
    ensures closure { IsClosure (orders_until before.now.items (later + 1) 0) (bit after.new.items) }
{
    for first in 0..size {
        if is_set(before, size, later, first) {
            close(after, row, size, first, later);
        }
    }
}
