//! The test of the header page.

ghost use Rattle.std.specs.Prelude.{◌≡◌, ◌≤◌, length};
ghost use Rattle.mg_base.specs.declared.damage.Field.TheVariants as fields;
ghost use Rattle.mg_check_pages.specs.PageTests.{header_test};

use mg_base::{Damaged, Field, PageNo};
use mg_header::{HEADER_END, HeadFault, MAGIC, MAJOR, OPENED_MINOR, open_header};

/// What is wanted of a field that tells a file of another kind, for this page size.
fn wanted_of(field: Field, size: u32) -> u64
    ensures magic { field ≡ fields.Magic → result ≡ MAGIC }
    ensures major { field ≡ fields.Major → result ≡ MAJOR }
    ensures minor { field ≡ fields.Minor → result ≡ OPENED_MINOR }
    ensures size { field ≡ fields.PageSize → result ≡ size }
{
    match field {
        Field::Magic => u64::from(MAGIC),
        Field::Major => u64::from(MAJOR),
        Field::Minor => u64::from(OPENED_MINOR),
        _ => u64::from(size),
    }
}

/// Tests the fields of the header page of a database with this page size, in bytes.
///
/// # Errors
///
/// `Damaged` at the first field that is not as wanted: the bytes `MGDB`, major version, minor
/// version, page size; those of the common part; the next transaction, OIT, OAT and OST, each judged
/// by those before it.
pub fn check_header_page(b: &[u8], size: u32) -> Result<(), Damaged>
    requires { HEADER_END ≤ length b.now }
    ensures { result ≡ header_test b.now size }
{
    match open_header(b, size) {
        Ok(_) => Ok(()),
        Err(HeadFault::NotADatabase { field, found }) => Err(Damaged {
            page: PageNo(0),
            field,
            found,
            wanted: wanted_of(field, size),
        }),
        Err(HeadFault::Damaged(damage)) => Err(damage),
    }
}
