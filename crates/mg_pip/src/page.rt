//! A page inventory page as a whole: how it begins, and what is tested.

ghost use Rattle.std.specs.Prelude.{◌≡◌, ◌≤◌, ℕ, false, length};
ghost use Rattle.mg_base.specs.Checks.{PassesAll, verdict};
ghost use Rattle.mg_pip.specs.PipPage.{new_pip_page, pip_checks, used_in};

use mg_base::{Damaged, PageNo, check_common, new_common};

/// The kind of a page inventory page.
pub const PIP_KIND: u8 = 2;
/// Where the bits begin, eight to a byte.
pub const BITS_AT: usize = 16;

// The numbers of the file format, written once more: a slip in one of them is refused.
const _: () = prove!(PIP_KIND == 2);

const _: () = prove!(BITS_AT == 16);

/// Makes `b` a page inventory page on which no bit is set.
///
/// `seq` is the number of its region, counted from 0.
/// Source: Firebird ODS, page inventory page. There a set bit means a free page.
pub fn new_pip(b: &mut [u8], page: PageNo, seq: u32)
    requires { BITS_AT ≤ length b.old }
    ensures page { b.new ≡ new_pip_page (length b.old) page.0 seq }
    ensures unused { (bit : ℕ) → used_in b.new bit ≡ false }
    ensures passes { PassesAll (pip_checks b.new page.0 seq) }
{
    new_common(b, page, PIP_KIND, 0, seq);
}

/// Tests a page inventory page. No bit is refused.
///
/// `page` is the number that the page was read under, `seq` the number of its region.
///
/// # Errors
///
/// `Damaged` at the first field of the common part that differs, with owner 0.
pub fn check_pip(b: &[u8], page: PageNo, seq: u32) -> Result<(), Damaged>
    requires { BITS_AT ≤ length b.now }
    ensures { result ≡ verdict page (pip_checks b.now page.0 seq) }
{
    check_common(b, page, PIP_KIND, 0, seq)
}
