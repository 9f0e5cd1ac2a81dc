//! Orphan pages are released: their bits in the page inventory are cleared, so that the next page
//! that is taken may be one of them.
//!
//! Owns: the deed (`release_orphans`) on the pages of a file in memory, and what it leaves: the bits
//! of these pages cleared, each other bit, each other page and the front of each page inventory page
//! as they were. It goes once over the findings, and takes no memory.
//!
//! Invariant: none, it keeps no state.
//! Below: `mg_orphans`, for what an orphan page is; `mg_pip`, for the bits of a page inventory page;
//! `mg_image`, for which of them has the bit of a page. Above: nobody yet; the command that writes
//! the pages that changed.
//! Not here: which pages are reached, that an image stays sound, and how pages come to a disk.
#![tactic(auto)]

mod laws;
mod releasing;

pub use laws::released_pages_are_orphans;
pub use releasing::release_orphans;
