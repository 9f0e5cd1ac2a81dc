//! A version of a record, as it is read of an image.

use mg_base::RecId;
use mg_value::Row;
use mg_version::Version;

/// The first byte of a version that stands in its record's primary slot.
pub const PRIMARY_VERSION: u8 = 3;

/// A version of a record.
#[derive(Debug, Drop)]
pub struct Entry {
    /// The place of its cell.
    pub at: RecId,
    pub version: Version,
    /// The row that its body codes.
    pub row: Row,
}
