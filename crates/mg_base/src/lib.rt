//! The ground that every other crate stands on: the numbers of pages, transactions and records, the
//! fields of a page, and the outside world (a disk, a source of input, a sink of output).
//!
//! Owns: the common part of every page, and the meanings of the outside.
//!
//! | at | width | field |
//! |---|---|---|
//! | 0 | 1 | kind: 1 header, 2 page inventory, 3 transaction inventory, 4 pointer, 5 data, 7 index |
//! | 1 | 1 | flags, 0 |
//! | 2 | 2 | zero |
//! | 4 | 4 | the page's own number |
//! | 8 | 4 | owner: the number of the table's first pointer page, or 0 |
//! | 12 | 4 | sequence |
//!
//! All numbers in pages are unsigned, the low byte first.
//!
//! A disk is known by what it tells (`specs/Disk.antt`): its pages, what a crash now may leave, what
//! a crash since an earlier moment might have left, and what it was asked for. Page writes are whole or
//! absent and reach the disk in their order; what was settled stays. A disk in memory tells all of it,
//! and counts exactly.
//!
//! Above: every crate; `mg_device` makes a disk of a device that keeps no order, and of a real file.
//! Not here: what any kind of page means.
#![tactic(auto)]

mod bytes;
mod check;
mod damage;
mod disk;
mod faulty_disk;
mod fields;
mod geometry;
mod laws;
mod mem_disk;
mod mem_sink;
mod mem_source;
mod memory;
mod numbers;
mod obeyed;
mod std_streams;
mod streams;
mod transaction;

pub use bytes::Bytes;
pub use check::{check_common, check_field};
pub use damage::{Damaged, Field};
pub use disk::{Disk, DiskFault};
pub use faulty_disk::FaultyDisk;
pub use fields::{
    COMMON, FLAGS_AT, KIND_AT, OWN_AT, OWNER_AT, SEQUENCE_AT, ZERO_AT, get_u16, get_u32,
    new_common, put_u16, put_u32,
};
pub use geometry::{GREATEST_LIMIT, Geometry, LEAST_LIMIT, is_page_size};
pub use laws::numbers_of_every_file;
pub use mem_disk::MemDisk;
pub use mem_sink::MemSink;
pub use mem_source::MemSource;
pub use memory::Memory;
pub use numbers::{PageNo, RecId, TxNo};
pub use std_streams::{StdSink, StdSource};
pub use streams::{Sink, SinkFault, Source, SourceFault};
pub use transaction::{Markers, TxState};
