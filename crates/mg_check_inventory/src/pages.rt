//! Pages by their numbers, and the bits of those that are reached.

ghost use Rattle.std.specs.Prelude.{◌≡◌, ◌<◌, ◌≤◌, ℕ, MatchOption, OnOk, length, true};
ghost use Rattle.mg_base.specs.Checks.{verdict};
ghost use Rattle.mg_base.specs.Geometry.{is_page_size};
ghost use Rattle.mg_base.specs.Image.{page_at};
ghost use Rattle.mg_base.specs.declared.geometry.TheConstants.{GREATEST_LIMIT};
ghost use Rattle.mg_image.specs.Inventory.{is_used as used_in};
ghost use Rattle.mg_pip.specs.PipPage.{bits as bits_in};
ghost use Rattle.mg_check_inventory.specs.ImagePages.{IsWholeImage, bit_checks, bit_number as number_of_bit, lawful_link as lawful_link_of, link_checks, numbered, presence_checks};

use mg_base::{Bytes, Damaged, Field, GREATEST_LIMIT, PageNo, check_field};

/// How many bits a page inventory page of this size has, in bytes.
pub(crate) fn bits_of(size: u32) -> u32
    requires { is_page_size size ≡ true }
    ensures bits { result ≡ bits_in size }
    ensures least { 8064 ≤ result }
    ensures most { result ≤ 130944 }
{
    8 * (size - 16)
}

/// A page by its number, `None` exactly where the file ends before it.
pub fn page_of(pages: &[Bytes], n: u32) -> Option<&[u8]>
    ensures page { MatchOption result (length pages.now ≤ n)
        (λ page. (size : ℕ) → page.now ≡ page_at size pages.now n) }
    ensures there { MatchOption result (length pages.now ≤ n) (λ page. n < length pages.now) }
{
    if (n as usize) < pages.len() {
        Some(pages[n as usize].as_slice())
    } else {
        None
    }
}

/// Whether a page is marked as used. A page inventory page that is absent marks none.
fn is_used(size: u32, pages: &[Bytes], n: u32) -> bool
    requires image { IsWholeImage size pages.now }
    requires below { n < GREATEST_LIMIT }
    ensures { result ≡ used_in size (page_at size pages.now) n }
{
    let bits = bits_of(size);
    match page_of(pages, n / bits * bits + 1) {
        None => false,
        Some(page) => mg_pip::is_used(page, n % bits),
    }
}

/// A bit as a number.
fn bit_number(bit: bool) -> u32
    ensures { result ≡ number_of_bit bit }
{
    if bit { 1 } else { 0 }
}

/// Tests that a reached page is marked as used.
///
/// `size` is the page size in bytes, `n` the page's number.
///
/// # Errors
///
/// `Damaged` at `Field::Bit`, exactly where it is not.
pub fn check_bit(size: u32, pages: &[Bytes], n: u32) -> Result<(), Damaged>
    requires image { IsWholeImage size pages.now }
    requires below { n < GREATEST_LIMIT }
    ensures { result ≡ verdict (numbered n) (bit_checks size (page_at size pages.now) n) }
{
    check_field(
        PageNo(n),
        Field::Bit,
        bit_number(is_used(size, pages, n)),
        1,
    )
}

/// The number itself where a link may name it, else the greatest that one may name.
fn lawful_link(n: u32) -> u32
    ensures { result ≡ lawful_link_of n }
{
    if n == 0 || n >= GREATEST_LIMIT {
        GREATEST_LIMIT - 1
    } else {
        n
    }
}

/// Tests a link that has to lead to a page.
///
/// # Errors
///
/// `Damaged` at `Field::Link` of its holder, exactly where it names the header page or one past the
/// greatest limit.
pub fn check_link(holder: u32, n: u32) -> Result<(), Damaged>
    ensures test { result ≡ verdict (numbered holder) (link_checks n) }
    ensures below { OnOk result (n < GREATEST_LIMIT) }
{
    check_field(PageNo(holder), Field::Link, n, lawful_link(n))
}

/// Tests that a file of so many pages has a page.
pub fn check_presence(count: usize, n: u32) -> Result<(), Damaged>
    requires { n < GREATEST_LIMIT }
    ensures test { result ≡ verdict (numbered n) (presence_checks count n) }
    ensures there { OnOk result (n < count) }
{
    if (n as usize) < count {
        Ok(())
    } else {
        Err(Damaged {
            page: PageNo(n),
            field: Field::Presence,
            found: count as u64,
            wanted: u64::from(n) + 1,
        })
    }
}
