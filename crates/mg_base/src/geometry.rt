//! The shape of a database file.

ghost use Rattle.std.specs.Prelude.{◌≡◌};
ghost use Rattle.mg_base.specs.Geometry.{is_page_size as page_size_test, geometry_of};

/// The size of a page in bytes, and the number of pages below which new pages are taken.
#[derive(Clone, Copy, Debug, PartialEq, Eq)]
pub struct Geometry {
    /// The size of a page in bytes, one of five.
    pub size: u32,
    /// New pages have numbers below this one, 16 to 131072.
    pub limit: u32,
}

/// The least page limit of a database.
pub const LEAST_LIMIT: u32 = 16;

/// The greatest page limit. Pages from this number on are not part of a database.
pub const GREATEST_LIMIT: u32 = 131_072;

/// Tells whether a page may have this size, in bytes: 1024, 2048, 4096, 8192 or 16384.
pub fn is_page_size(size: u32) -> bool
    ensures { result ≡ page_size_test size }
{
    matches!(size, 1024 | 2048 | 4096 | 8192 | 16384)
}

impl Geometry {
    /// The geometry of this page size and page limit, if they are lawful.
    pub fn new(size: u32, limit: u32) -> Option<Geometry>
        ensures { result ≡ geometry_of size limit }
    {
        if is_page_size(size) && limit >= LEAST_LIMIT && limit <= GREATEST_LIMIT {
            Some(Geometry { size, limit })
        } else {
            None
        }
    }
}
