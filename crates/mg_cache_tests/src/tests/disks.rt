//! Pages as a disk has them.

use mg_base::{Disk, PageNo};

/// A page of a disk with pages of 1024 bytes, if it can be read.
pub fn read_page<D: Disk>(disk: &mut D, page: u32) -> Option<[u8; 1024]> {
    let Ok(pages) = disk.pages() else {
        return None;
    };
    let Ok(1024) = disk.page_size() else {
        return None;
    };
    let mut bytes = [9; 1024];
    if page >= pages || disk.read(PageNo(page), &mut bytes).is_err() {
        return None;
    }
    Some(bytes)
}
