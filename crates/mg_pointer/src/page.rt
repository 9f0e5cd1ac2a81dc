//! A pointer page as a whole: how it begins, and what is tested.

ghost use Rattle.std.specs.Prelude.{◌≡◌, ◌≤◌, ◌^◌, [], length};
ghost use Rattle.mg_base.specs.Checks.{PassesAll, verdict};
ghost use Rattle.mg_pointer.specs.PointerPage.{IsPointerPage, capacity as most_entries, entries_of, new_pointer_page, next_in, pointer_checks, rest_checks};

use mg_base::{Damaged, Field, PageNo, check_common, check_field, get_u16, new_common};

/// The kind of a pointer page.
pub const POINTER_KIND: u8 = 4;
/// Where a pointer page names the next one of its table, width 4, 0 for none.
pub const NEXT_AT: usize = 16;
/// Where a pointer page has the count of its entries, width 2.
pub const COUNT_AT: usize = 20;
/// Where a pointer page has two zero bytes.
pub const UNUSED_AT: usize = 22;
/// Where the entries begin.
pub const ENTRIES_AT: usize = 24;
/// The width of an entry.
pub const ENTRY_LEN: usize = 4;

// The numbers of the file format, written once more: a slip in one of them is refused.
const _: () = prove!(POINTER_KIND == 4);

const _: () = prove!(NEXT_AT == 16);

const _: () = prove!(COUNT_AT == 20);

const _: () = prove!(UNUSED_AT == 22);

const _: () = prove!(ENTRIES_AT == 24);

const _: () = prove!(ENTRY_LEN == 4);

/// Makes `b` a pointer page without entries and without a next page.
///
/// `owner` is the number of the first pointer page of the table, `seq` this page's place in their
/// chain.
/// Source: Firebird ODS, pointer page.
pub fn new_pointer(b: &mut [u8], page: PageNo, owner: u32, seq: u32)
    requires least { ENTRIES_AT ≤ length b.old }
    requires most { length b.old ≤ 2 ^ 16 }
    ensures page { b.new ≡ new_pointer_page (length b.old) page.0 owner seq }
    ensures entries { entries_of b.new ≡ [] }
    ensures next { next_in b.new ≡ 0 }
    ensures passes { PassesAll (pointer_checks b.new page.0 owner seq) }
    ensures lawful { IsPointerPage b.new }
{
    new_common(b, page, POINTER_KIND, owner, seq);
}

/// Tests a pointer page. No entry is refused, and no next page.
///
/// `page` is the number that the page was read under, `owner` the number of the first pointer page
/// of the table, `seq` this page's place in their chain.
///
/// # Errors
///
/// `Damaged` at the first field that differs: those of the common part; the count, where it is
/// greater than the number of entries that have room; the two zero bytes behind it.
pub fn check_pointer(b: &[u8], page: PageNo, owner: u32, seq: u32) -> Result<(), Damaged>
    requires least { ENTRIES_AT ≤ length b.now }
    requires most { length b.now ≤ 2 ^ 16 }
    ensures { result ≡ verdict page (pointer_checks b.now page.0 owner seq) }
{
    check_common(b, page, POINTER_KIND, owner, seq)?;
    check_rest(b, page)
}

/// Tests the fields behind the common part.
fn check_rest(b: &[u8], page: PageNo) -> Result<(), Damaged>
    requires least { ENTRIES_AT ≤ length b.now }
    requires most { length b.now ≤ 2 ^ 16 }
    ensures { result ≡ verdict page (rest_checks b.now) }
{
    let count = get_u16(b, COUNT_AT);
    let wanted = count.min(capacity(b));
    check_field(page, Field::Count, u32::from(count), u32::from(wanted))?;
    check_field(page, Field::Zero, u32::from(get_u16(b, UNUSED_AT)), 0)
}

/// How many entries have room.
pub(crate) fn capacity(b: &[u8]) -> u16
    requires least { ENTRIES_AT ≤ length b.now }
    requires most { length b.now ≤ 2 ^ 16 }
    ensures { result ≡ most_entries (length b.now) }
{
    ((b.len() - ENTRIES_AT) / ENTRY_LEN) as u16
}
