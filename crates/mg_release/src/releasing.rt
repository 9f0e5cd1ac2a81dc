//! The bits of orphan pages are cleared.

ghost use Rattle.std.specs.Prelude.{◌≡◌, ◌==◌, ◌<◌, false, length};
ghost use Rattle.mg_base.specs.Geometry.{is_page_size};
ghost use Rattle.mg_base.specs.declared.geometry.TheConstants.{GREATEST_LIMIT};
ghost use Rattle.mg_check_inventory.specs.ImagePages.{IsWholeImage};
ghost use Rattle.mg_pip.specs.PipPage.{SetsUsed, bits as bits_in};
ghost use Rattle.mg_release.specs.Releasing.{AreOrphans, Releases, bit_page as page_with_bit, is_page_of};
ghost use Rattle.std.specs.Prelude.{true};

use mg_base::Bytes;
use mg_findings::Finding;
use mg_pip::{BITS_AT, set_used};
use std::alloc::Global;
use std::mem::replace;

/// How many bits a page inventory page of this size has, in bytes.
fn bits_of(size: u32) -> u32
    requires { is_page_size size ≡ true }
    ensures bits { result ≡ bits_in size }
    ensures some { 0 < result }
{
    8 * (size - BITS_AT as u32)
}

/// The page inventory page that has the bit of a page.
fn bit_page(size: u32, n: u32) -> u32
    requires lawful { is_page_size size ≡ true }
    requires below { n < GREATEST_LIMIT }
    ensures { result ≡ page_with_bit size n }
{
    let bits = bits_of(size);
    n / bits * bits + 1
}

/// Clears a bit of a page inventory page.
fn clear_bit(alloc: Global, page: &mut Bytes, bit: u32)
    requires { bit < bits_in (length page.old) }
    ensures { SetsUsed page.old page.new bit false }
{
    // The page is taken out while it changes: an empty list takes no memory.
    let mut bytes = replace(page, Bytes::new(Vec::new(alloc))).into_vec();
    set_used(&mut bytes, bit, false);
    *page = Bytes::new(bytes);
}

/// Clears the bit of a page of an image, of which these are the pages.
fn release_page(alloc: Global, size: u32, pages: &mut [Bytes], n: u32)
    requires image { IsWholeImage size pages.old }
    requires below { n < GREATEST_LIMIT }
    requires there { page_with_bit size n < length pages.old }
    ensures { Releases size pages.old pages.new (λ m. m == n) }
{
    let at = bit_page(size, n) as usize;
    let bit = n % bits_of(size);
    clear_bit(alloc, &mut pages[at], bit);
}

/// Clears the bits of all orphan pages of an image, of which these are the pages.
///
/// `size` is the page size in bytes, `found` the list of what is found of orphan pages.
pub fn release_orphans(alloc: Global, size: u32, pages: &mut [Bytes], found: &[Finding])
    requires image { IsWholeImage size pages.old }
    requires found { AreOrphans size pages.old found.now }
    ensures { Releases size pages.old pages.new (is_page_of found.now) }
{
    let mut rest = found;
    while let Some((finding, later)) = rest.split_first() {
        release_page(alloc, size, pages, finding.page.0);
        rest = later;
    }
}
