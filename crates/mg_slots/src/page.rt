//! A data page as it is made and read.

ghost use Rattle.std.specs.Prelude.{◌≡◌, ◌+◌, ◌*◌, ◌<◌, ◌≤◌, length, None, Ok, Some, MatchOption};
ghost use Rattle.mg_base.specs.Fields.{u16_at};
ghost use Rattle.mg_slots.specs.DataPage.{IsDataPage, IsNewPage, cell_of, length_at, offset_at, slot_count};
ghost use Rattle.mg_slots.specs.Verdict.{common_verdict};

use mg_base::{PageNo, get_u16, new_common, put_u16};

/// The kind of a data page: byte 0 of the common part.
pub const DATA_KIND: u8 = 5;
/// Where a data page has its number of slots, width 2.
pub const COUNT_AT: usize = 16;
/// Where a data page names the lowest byte that a cell uses, width 2.
pub const LOW_AT: usize = 18;
/// Where the slots begin.
pub const SLOTS_AT: usize = 20;
/// The length of a slot: its cell's offset and its cell's length, 2 bytes each.
pub const SLOT_LEN: usize = 4;
/// The least number of bytes that a cell takes: the length of an anchor, which can replace any
/// cell.
pub const LEAST_TAKEN: usize = 11;
/// The least size of a page, in bytes.
pub const LEAST_SIZE: usize = 1024;
/// The greatest size of a page, in bytes.
pub const GREATEST_SIZE: usize = 16384;

// The numbers of the file format, written once more: a slip in one of them is refused.
const _: () = prove!(DATA_KIND == 5);

const _: () = prove!(COUNT_AT == 16);

const _: () = prove!(LOW_AT == 18);

const _: () = prove!(SLOTS_AT == 20);

const _: () = prove!(SLOT_LEN == 4);

const _: () = prove!(LEAST_TAKEN == 11);

const _: () = prove!(LEAST_SIZE == 1024);

const _: () = prove!(GREATEST_SIZE == 16_384);

/// Makes `b` a data page without slots, with zero bytes behind its fields.
///
/// `owner` is the number of the table's first pointer page, and `seq` the page's place among the
/// table's data pages.
/// Source: Firebird ODS, data page (`dpg`).
pub fn new_data(b: &mut [u8], page: PageNo, owner: u32, seq: u32)
    requires least { LEAST_SIZE ≤ length b.old }
    requires greatest { length b.old ≤ GREATEST_SIZE }
    ensures made { IsNewPage b.new (length b.old) page.0 owner seq }
    ensures passes { common_verdict b.new page DATA_KIND owner seq ≡ Ok tt }
{
    new_common(b, page, DATA_KIND, owner, seq);
    let low = b.len() as u16;
    put_u16(b, LOW_AT, low);
}

/// The number of slots, the free ones among them included. The last one is in use.
pub fn slots(b: &[u8]) -> u16
    requires { IsDataPage b.now }
    ensures { result ≡ slot_count b.now }
{
    get_u16(b, COUNT_AT)
}

/// The cell of a slot, without the bytes that follow a short one. A slot that is free or past the
/// last one has none.
#[tactic(auto, unfolding(crate::specs::DataPage::cell_of))]
pub fn cell(b: &[u8], slot: u16) -> Option<&[u8]>
    requires { IsDataPage b.now }
    ensures { MatchOption result (cell_of b.now slot ≡ None)
        (λ c. cell_of b.now slot ≡ Some c.now) }
{
    if slot >= slots(b) {
        return None;
    }
    let offset = offset(b, slot as usize);
    let len = cell_len(b, slot as usize);
    if offset == 0 {
        None
    } else {
        Some(&b[offset..offset + len])
    }
}

/// Where the cell of a slot begins, 0 for a free slot.
pub(crate) fn offset(b: &[u8], slot: usize) -> usize
    requires { SLOTS_AT + SLOT_LEN * (slot + 1) ≤ length b.now }
    ensures { result ≡ offset_at b.now slot }
{
    get_u16(b, SLOTS_AT + SLOT_LEN * slot) as usize
}

/// How long the cell of a slot is, 0 for a free slot.
pub(crate) fn cell_len(b: &[u8], slot: usize) -> usize
    requires { SLOTS_AT + SLOT_LEN * (slot + 1) ≤ length b.now }
    ensures { result ≡ length_at b.now slot }
{
    get_u16(b, SLOTS_AT + SLOT_LEN * slot + 2) as usize
}
