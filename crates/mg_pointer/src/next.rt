//! The next pointer page of a table.

ghost use Rattle.std.specs.Prelude.{◌≡◌, ◌≤◌, length};
ghost use Rattle.mg_pointer.specs.PointerPage.{IsPointerPage, SetsNext, next_in};

use crate::NEXT_AT;
use mg_base::{PageNo, get_u32, put_u32};

/// The table's next pointer page, page 0 where there is none.
pub fn next_of(b: &[u8]) -> PageNo
    requires { IsPointerPage b.now }
    ensures { result.0 ≡ next_in b.now }
{
    PageNo(get_u32(b, NEXT_AT))
}

/// Names the table's next pointer page.
///
/// Careful write: `p`, and the page inventory page with its bit, reach the disk before this page
/// does. The caller adds both orders to its batch.
pub fn set_next(b: &mut [u8], p: PageNo)
    requires { IsPointerPage b.old }
    ensures { SetsNext b.old b.new p.0 }
{
    put_u32(b, NEXT_AT, p.0);
}
