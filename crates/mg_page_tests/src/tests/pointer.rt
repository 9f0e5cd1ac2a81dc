//! Pointer pages, byte by byte.

ghost use Rattle.mg_pointer.specs.PointerPage.{IsPointerPage};

use super::broken::{Kind, is_lawful, number_of};
use super::bytes::has_bytes;
use mg_base::PageNo;
use mg_pointer::{add_entry, entry, new_pointer, next_of, set_next};

/// The second pointer page of table 3, without entries.
pub fn new_page() -> [u8; 1024]
    ensures { IsPointerPage result }
{
    let mut page = [0u8; 1024];
    new_pointer(&mut page, number_of(Kind::Pointers), 3, 1);
    page
}

/// Adds entries from 1000 on until one finds no room, and answers how many found it.
fn add_many(page: &mut [u8; 1024]) -> u16
    requires { IsPointerPage page.old }
    ensures { IsPointerPage page.new }
{
    for place in 0..1000 {
        if !add_entry(page, PageNo(1000 + u32::from(place))) {
            return place;
        }
    }
    1000
}

/// Tells whether this is the number of the page that is the entry at a place.
fn is_entry(page: &[u8; 1024], place: u16, wanted: Option<u32>) -> bool
    requires { IsPointerPage page.now }
{
    match entry(page, place) {
        Some(number) => wanted == Some(number.0),
        None => wanted.is_none(),
    }
}

/// Tells whether a full page has the entries that were added.
fn is_full(page: &[u8; 1024]) -> bool
    requires { IsPointerPage page.now }
{
    is_entry(page, 0, Some(1000)) && is_entry(page, 249, Some(1249)) && is_entry(page, 250, None)
}

/// Tells whether entries stand behind each other until the page is full.
fn is_filled() -> bool {
    let mut page = new_page();
    is_entry(&page, 0, None)
        && add_many(&mut page) == 250
        && is_full(&page)
        && has_bytes(&page, 20, &[250, 0, 0, 0, 0xe8, 3, 0, 0])
        && is_lawful(Kind::Pointers, &page)
}

/// A page with the entry 5, which leads to this page.
fn page_before(next: u32) -> [u8; 1024]
    ensures { IsPointerPage result }
{
    let mut page = new_page();
    add_entry(&mut page, PageNo(5));
    set_next(&mut page, PageNo(next));
    page
}

/// Tells whether the next page stands beside the entries.
fn has_next() -> bool {
    let page = page_before(131_071);
    next_of(&new_page()) == PageNo(0)
        && next_of(&page) == PageNo(131_071)
        && has_bytes(&page, 16, &[0xff, 0xff, 1, 0, 1, 0, 0, 0, 5, 0, 0, 0])
        && is_lawful(Kind::Pointers, &page)
}

#[test]
fn entries_stand_behind_each_other_beside_the_next_page(rt: HostRuntime) {
    assert!(rt; is_filled());
    assert!(rt; has_next());
}
