//! Pages that are broken byte by byte, and the field that is told then.

use super::bytes::put_byte;
use super::steps::{Step, go_each};
use super::{pip, pointer, tip};
use mg_base::{Damaged, Field, PageNo};
use mg_pip::check_pip;
use mg_pointer::check_pointer;
use mg_tip::check_tip;

/// A kind of page, whose test is given the number, the owner and the place that its pages have here.
#[derive(Clone, Copy)]
pub enum Kind {
    Inventory,
    Transactions,
    Pointers,
}

/// The number of the page of a kind.
pub fn number_of(kind: Kind) -> PageNo {
    match kind {
        Kind::Inventory => PageNo(1),
        Kind::Transactions => PageNo(2),
        Kind::Pointers => PageNo(4),
    }
}

/// Tests a page of a kind.
pub fn check(kind: Kind, page: &[u8; 1024]) -> Result<(), Damaged> {
    match kind {
        Kind::Inventory => check_pip(page, PageNo(1), 0),
        Kind::Transactions => check_tip(page, PageNo(2), 0),
        Kind::Pointers => check_pointer(page, PageNo(4), 3, 1),
    }
}

/// Tells whether a page of a kind is lawful.
pub fn is_lawful(kind: Kind, page: &[u8; 1024]) -> bool {
    check(kind, page).is_ok()
}

/// Tells whether a page is damaged at a field.
fn is_damaged(kind: Kind, page: &[u8; 1024], field: Field, found: u64, wanted: u64) -> bool {
    let damage = Damaged {
        page: number_of(kind),
        field,
        found,
        wanted,
    };
    check(kind, page) == Err(damage)
}

/// A new page of a kind.
fn new_page(kind: Kind) -> [u8; 1024] {
    match kind {
        Kind::Inventory => pip::new_page(),
        Kind::Transactions => tip::new_page(),
        Kind::Pointers => pointer::new_page(),
    }
}

/// What is done to a page.
enum Call {
    /// A new page of a kind comes in its place.
    New(Kind),
    /// A byte is put at a place; then the field that is told, and the numbers found and wanted.
    Broken(usize, u8, Field, u64, u64),
}

/// Puts a new page of a kind in its place.
fn renew(on: &mut (Kind, [u8; 1024]), kind: Kind) -> bool {
    *on = (kind, new_page(kind));
    true
}

impl Step<(Kind, [u8; 1024])> for Call {
    fn goes(&self, on: &mut (Kind, [u8; 1024])) -> bool {
        match *self {
            Call::New(kind) => renew(on, kind),
            Call::Broken(at, byte, field, found, wanted) => {
                put_byte(&mut on.1, at, byte);
                is_damaged(on.0, &on.1, field, found, wanted)
            }
        }
    }
}

/// Each page has the bytes of the rows before it in it. So the rows go from the last field to the
/// first, and each stands before those that differ already.
const CALLS: &[Call] = &[
    Call::New(Kind::Inventory),
    Call::Broken(12, 9, Field::Sequence, 9, 0),
    Call::Broken(8, 3, Field::Owner, 3, 0),
    Call::Broken(5, 1, Field::Own, 257, 1),
    Call::Broken(2, 1, Field::Zero, 1, 0),
    Call::Broken(1, 1, Field::Flags, 1, 0),
    Call::Broken(0, 3, Field::Kind, 3, 2),
    Call::New(Kind::Transactions),
    Call::Broken(17, 1, Field::Link, 256, 0),
    Call::Broken(12, 9, Field::Sequence, 9, 0),
    Call::Broken(8, 3, Field::Owner, 3, 0),
    Call::Broken(4, 7, Field::Own, 7, 2),
    Call::Broken(3, 1, Field::Zero, 256, 0),
    Call::Broken(1, 1, Field::Flags, 1, 0),
    Call::Broken(0, 2, Field::Kind, 2, 3),
    Call::New(Kind::Pointers),
    Call::Broken(23, 1, Field::Zero, 256, 0),
    Call::Broken(20, 251, Field::Count, 251, 250),
    Call::Broken(12, 0, Field::Sequence, 0, 1),
    Call::Broken(8, 4, Field::Owner, 4, 3),
    Call::Broken(4, 5, Field::Own, 5, 4),
    Call::Broken(2, 1, Field::Zero, 1, 0),
    Call::Broken(1, 1, Field::Flags, 1, 0),
    Call::Broken(0, 5, Field::Kind, 5, 4),
];

#[test]
fn the_first_field_that_differs_is_named(rt: HostRuntime) {
    let kind = Kind::Inventory;
    go_each(&rt, &mut (kind, new_page(kind)), CALLS);
}
