//! Why a start is refused.

/// The faults of a start.
#[derive(Clone, Copy, Debug, PartialEq, Eq)]
pub enum BehindFault {
    /// The device has more pages than there is room for.
    TooLarge { pages: u32 },
    /// A call of the device failed.
    DiskRead,
    /// Memory was short.
    Memory,
}
