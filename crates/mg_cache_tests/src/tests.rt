//! What no clause says of the cache and of what works through it: that calls succeed with ample
//! memory, and worked rows.

mod btree;
mod calls;
mod careful;
mod chain;
mod device;
mod disks;
mod entries;
mod heap;
mod node_writing;
mod pool;
mod snap;
mod space;
mod stores;
mod txlist;
mod undo;
mod waits;
mod works;
