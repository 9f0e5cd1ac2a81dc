//! The cache of pages over a disk: it keeps changed pages, and writes them in an order that a crash
//! cannot cut to harm.
//! A change says which page has to reach the disk before which; the cache writes no page before
//! those that precede it.
//!
//! Owns: no bytes of the file. It owns the dirty pages until they are written.
//!
//! A page is dirty from its change to its next page write. At most 512 pages are dirty: their
//! buffers and the graph of their orders are taken at once, so a change of one page, a page write
//! and a settle are refused for no want of memory. Where one more page would be dirty, or an order
//! would close a cycle, the change first writes pages with their old content, and in no other case.
//! As many clean pages are kept as the pool was made for (`CLEAN_PAGES`), those that were used last;
//! a page that was written is kept as one, where there is memory for it. A call that is refused
//! leaves everything as it was, but for the page writes that were made before one failed.
//!
//! A content is tested when it comes to the cache, as the page of its number and by the test of the
//! file's format (`Links::is_lawful`); the answer stays beside it (`Tested`), and `passes` tells it
//! without a look at the bytes. How many bytes a new cell may take on a data page is noted where somebody
//! has looked (`Rooms`), until the page is changed: also of a page that has left the cache.
//!
//! Invariant: exactly the dirty pages stand in the graph of orders, orders have no cycle, each
//! content is one page long, and a clean page is as on the disk. Each dirty and each clean page lies
//! below the page limit, and the disk has no more pages than that. What is noted of a page's room is so of
//! its content as the cache shows it. After a page write or a settle
//! has failed, every call that may answer a fault is refused.
//! Below: `mg_base` for the disk, `mg_careful` for the graph and the law, `mg_slots` for what the room of
//! a page is. Above: whatever reads and changes pages.
//! Not here: what is on a page, but for that number, and which orders its change needs.
#![tactic(auto)]

mod batch;
mod clean;
mod dirty;
mod dirty_page;
mod fault;
mod law;
mod pool;
mod reserved;
mod rooms;
mod tested;

pub use batch::{BATCH_PAGES, Batch, BatchPage};
pub use dirty_page::MARKERS;
pub use fault::PoolFault;
pub use law::stays_careful;
pub use pool::{CLEAN_PAGES, DIRTY_PAGES, Pool};
pub use tested::Tested;
