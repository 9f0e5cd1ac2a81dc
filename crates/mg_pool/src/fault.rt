//! What a call of the pool can be refused for.

/// The fault of a pool. A count is that of the faults of the disk that the pool met so far.
#[derive(Clone, Copy, Debug, PartialEq, Eq)]
pub enum PoolFault {
    /// The disk failed to tell its pages or to read one. Later calls may succeed.
    DiskRead { faults: u64 },
    /// A page write or a settle failed. From then on every call answers `Offline`.
    DiskWrite { faults: u64 },
    /// An earlier call answered `DiskWrite`, with this count.
    Offline { faults: u64 },
    /// The page is neither dirty nor on the disk, which has this number of pages.
    Absent { pages: u32 },
    /// There was no memory. No page was written, and the pool's pages are as they were.
    Memory,
}
