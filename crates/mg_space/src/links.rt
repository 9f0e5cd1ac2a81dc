//! The links of the file's format: which things on one page lead to which things on others.

ghost use Rattle.std.specs.Bool.{OnTrue};
ghost use Rattle.std.specs.Prelude.{◌≡◌, ◌≤◌, ◌&&◌, ◌==◌, true, length};
ghost use Rattle.mg_base.specs.Geometry.{is_page_size};
ghost use Rattle.mg_image.specs.Records.{slot_cell};
ghost use Rattle.mg_pip.specs.PipPage.{bits as bits_of_size};
ghost use Rattle.mg_slots.specs.DataPage.{cell_of};
ghost use Rattle.mg_space.specs.Demands.{is_header as header_test, is_version_of as version_test, meets_by as meets_test, meets_bit, meets_tree};
ghost use Rattle.mg_space.specs.Lawful.{IsLawfulData};

use crate::cells::{cell_at, is_version_of};
use crate::demands::put_demands;
use crate::fields::page_size_of;
use crate::stacked::check_page;
use crate::taking::region_len;
use mg_base::{Memory, OWNER_AT, PageNo, SEQUENCE_AT, check_common, get_u32};
use mg_careful::{Demand, Links};
use mg_header::{NEXT_AT, open_header};
use mg_node::{check_node_common, level_of};
use mg_pip::{check_pip, is_used};
use mg_pointer::check_pointer;
use mg_pool::Pool;
use mg_slots::{DATA_KIND, GREATEST_SIZE, LEAST_SIZE};
use mg_tip::check_tip;

/// A header page with lawful fields.
pub const HEADER: u8 = 1;
/// A header with its next transaction above the transaction `a`.
pub const NEXT: u8 = 2;
/// A transaction inventory page of the sequence `a`.
pub const TRANSACTIONS: u8 = 3;
/// A pointer page of the owner `a`, at the place `b` of its chain.
pub const POINTER: u8 = 4;
/// A data page of the owner `a`, at the place `b` among its data pages.
pub const DATA: u8 = 5;
/// A version of the transaction `b` in the slot `a`.
pub const VERSION: u8 = 6;
/// An index page of the owner `a`.
pub const TREE: u8 = 7;
/// An index page of the owner `a`, on the level `b`.
pub const NODE: u8 = 8;
/// The bit of the page `a` in its inventory page.
pub const BIT: u8 = 9;

/// The links of the file format.
///
/// | wanted | demands in turn |
/// |---|---|
/// | `HEADER` | the last transaction inventory page, the catalog's first pointer page |
/// | `NEXT`, `BIT` | nothing |
/// | `TRANSACTIONS` | `NEXT` for each transaction in limbo or committed; the page before it |
/// | `POINTER` | its data pages, each at its place; the next pointer page |
/// | `DATA` | the version that each anchor leads to; what a version in a primary slot demands |
/// | `VERSION` | `NEXT` for its transaction; the version before it |
/// | `TREE` | its children, each a `NODE` of the level below |
/// | `NODE` | its right neighbour, a `NODE` of its level; its children, each of the level below |
///
/// A page is demanded together with its bit.
pub struct FireLinks;

/// The cache of the pages of a database.
pub type Store<D> = Pool<D, FireLinks>;

impl Links for FireLinks {
    ghost use Rattle.mg_space.specs.Demands.{demands_of as demands_of_page, meets_of as meets_of_page};
    ghost use Rattle.mg_space.specs.Lawful.{IsLawfulPage};

    ghost demands_of = { demands_of_page };

    ghost meets_of = { meets_of_page };

    ghost lawful_of = { IsLawfulPage };

    #[tactic(auto, unfolding(crate::specs::Demands::demands_of))]
    fn demands(b: &[u8], want: &Demand, out: &mut Vec<Demand>) -> Result<(), Memory> {
        let Some(size) = page_size_of(b) else {
            return Ok(());
        };
        let start = out.len();
        match put_demands(b, size, want, out) {
            Ok(()) => Ok(()),
            Err(fault) => {
                out.truncate(start);
                Err(fault)
            }
        }
    }

    #[tactic(auto, unfolding(crate::specs::Demands::meets_of))]
    fn meets(b: &[u8], want: &Demand) -> bool {
        let Some(size) = page_size_of(b) else {
            return false;
        };
        has_wanted(b, size, want)
    }

    /// A data page alone is tested: the tests of other pages are as short as a look at the mark.
    fn is_lawful(page: u32, b: &[u8]) -> bool {
        is_data(PageNo(page), b)
    }
}

/// Tells that a page is a data page, of the owner and of the place that it names.
fn is_data(page: PageNo, b: &[u8]) -> bool
    ensures { OnTrue result (IsLawfulData page b.now) }
{
    if b.len() < LEAST_SIZE || GREATEST_SIZE < b.len() {
        return false;
    }
    match check_page(b, page, get_u32(b, OWNER_AT), get_u32(b, SEQUENCE_AT)) {
        Ok(()) => true,
        Err(_) => false,
    }
}

/// Tells whether a page of this size has what is wanted.
fn has_wanted(b: &[u8], size: u32, want: &Demand) -> bool
    requires size { is_page_size size ≡ true }
    requires len { length b.now ≡ size }
    ensures { result ≡ meets_test size b.now want.now }
{
    let page = PageNo(want.target);
    match want.what {
        HEADER => page.0 == 0 && is_header(b, size),
        NEXT => page.0 == 0 && is_header(b, size) && want.a < get_u32(b, NEXT_AT),
        TRANSACTIONS => check_tip(b, page, want.a).is_ok(),
        POINTER => check_pointer(b, page, want.a, want.b).is_ok(),
        DATA => check_common(b, page, DATA_KIND, want.a, want.b).is_ok(),
        VERSION => has_version(b, want.a, want.b),
        TREE => is_tree(b, page, want.a),
        NODE => is_tree(b, page, want.a) && u32::from(level_of(b)) == want.b,
        BIT => has_bit(b, size, page, want.a),
        _ => false,
    }
}

/// Tells whether a page is a header page with lawful fields.
fn is_header(b: &[u8], size: u32) -> bool
    requires size { is_page_size size ≡ true }
    requires len { length b.now ≡ size }
    ensures { result ≡ header_test size b.now }
{
    open_header(b, size).is_ok()
}

/// Tells whether a slot holds a version of a transaction.
fn has_version(b: &[u8], slot: u32, t: u32) -> bool
    ensures { result ≡ version_test t (slot_cell (cell_of b.now slot)) }
{
    match cell_at(b, slot) {
        Some(cell) => is_version_of(cell, t),
        None => false,
    }
}

/// Tells whether a page is an index page of an owner.
fn is_tree(b: &[u8], page: PageNo, owner: u32) -> bool
    requires { 16 ≤ length b.now }
    ensures { result ≡ meets_tree b.now page owner }
{
    check_node_common(b, page, owner).is_ok()
}

/// Tells whether a page is the inventory page of another one, and has its bit.
fn has_bit(b: &[u8], size: u32, page: PageNo, n: u32) -> bool
    requires size { is_page_size size ≡ true }
    requires len { length b.now ≡ size }
    ensures { result ≡ meets_bit size b.now page n }
{
    let bits = region_len(size);
    check_pip(b, page, n / bits).is_ok() && is_used(b, n % bits)
}
