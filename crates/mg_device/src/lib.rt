//! The device: pages under a cache that nobody rules, and the disk that forces each page write onto
//! one. So the order of page writes, on which every promise of a crash rests, is proved, and not trusted.
//!
//! Owns: what a device means (`specs/Device.antt`), the wrapper that makes a disk of one, a device in
//! memory, and the real file: one to work on, and one that is read alone; and the trait `GrowingDisk`, a disk
//! that loses no page.
//!
//! A device keeps no order: until a sync that answers Ok its page writes may reach it in any order
//! and any subset, at any time; then they are there to stay. `ForcedWrites` syncs after each page
//! write, and reads, writes and settles nothing more after one that failed. So at most one page write
//! is ever pending, and a crash leaves what was there before it or after it.
//!
//! What is trusted of a real file is that page writes are whole or absent and that a sync is honest.
//! Below: `mg_base`, for disks. Above: the program, which opens a file.
//! Not here: what any page means, and which is written after which.
#![tactic(auto)]

mod device;
mod file_device;
mod forced;
mod growing;
mod mem_device;

pub use device::Device;
pub use file_device::{FileDevice, FileDisk};
pub use forced::ForcedWrites;
pub use growing::GrowingDisk;
pub use mem_device::MemDevice;
