//! What a disk is asked before it is opened.

ghost use Rattle.std.specs.Prelude.{IfOk};
ghost use Rattle.mg_survey.specs.Survey.{IsSurveyed, OnlyAsks, ReadsHead, IsSameDisk};

use crate::disk::is_unmade;
use mg_base::{Disk, DiskFault, Geometry};

/// How many pages a new database has.
const NEW_PAGES: u32 = 7;

/// What a disk has told.
#[derive(Clone, Copy, Debug, PartialEq, Eq)]
pub struct Survey {
    /// Its page size, and the page limit of the opening.
    pub geometry: Geometry,
    /// Whether a database may be made on it.
    pub unmade: bool,
}

/// Asks a disk for its page size and its number of pages, and whether a database may be made on it. The page
/// limit is the greatest of `limit`, the number of pages, and that of a new database.
///
/// # Errors
///
/// The disk's.
pub fn ask<D: Disk>(disk: &mut D, limit: u32) -> Result<Survey, DiskFault>
    ensures asks { OnlyAsks D.meaning disk.old disk.new result }
    ensures same { IsSameDisk D.meaning disk.old disk.new }
    ensures survey { IfOk result (IsSurveyed D.meaning disk.old disk.new limit) }
    ensures reads { IfOk result (λ it. ReadsHead D.meaning disk.old disk.new it.geometry.size) }
{
    let size = match disk.page_size() {
        Ok(size) => size,
        Err(fault) => return Err(fault),
    };
    let pages = match disk.pages() {
        Ok(pages) => pages,
        Err(fault) => return Err(fault),
    };
    let unmade = match is_unmade(disk, size, pages) {
        Ok(unmade) => unmade,
        Err(fault) => return Err(fault),
    };
    let limit = limit.max(pages).max(NEW_PAGES);
    Ok(Survey {
        geometry: Geometry { size, limit },
        unmade,
    })
}
