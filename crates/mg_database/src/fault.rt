//! Why a database is not opened.

use mg_base::Field;
use mg_space::SpaceFault;

/// Why a database is not opened.
#[derive(Clone, Copy, Debug, PartialEq, Eq)]
pub enum OpenFault {
    /// The file isn't a database of this version and page size: the field of page 0, and what stands there.
    NotADatabase { field: Field, found: u64 },
    /// The cache's fault, or damage.
    Space(SpaceFault),
}
