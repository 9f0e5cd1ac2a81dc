//! Where the tables of sound images stand, and what stays there while data pages are changed.
//!
//! Owns: the laws that tables of one name are one and have their data pages in one way (`OneTable`), that
//! data pages which change one after another leave the header, the bits of transactions, trees and the pages
//! of tables (`DataKept`), that an image so changed has the same layout, where none of them is the catalog's
//! (`LayoutStays`), and a record the versions that it had, where its cells are as they were (`Chains`). The
//! file `Laws` has what counts.
//!
//! All stands in `specs/`. There is no program here: each function does nothing, and its contract is a law.

ghost use Rattle.mg_image.specs.Form.{packed_form};
ghost use Rattle.mg_image_overlay_laws.specs.tables.TableLaws.{DataPagesAreIts, DataPagesLeave, LayoutsStay, RecordsStay};
ghost use Rattle.mg_image_overlay_laws.specs.tables.TableLaws.{TablesAreOne};

use mg_image::one_reading;

/// Tables of one name are one, and their data pages are theirs.
pub fn tables_are_one()
    ensures names { TablesAreOne packed_form }
    ensures pages { DataPagesAreIts packed_form }
{}

/// Changed data pages leave the tables where they stand, and the records whose cells they leave.
pub fn data_pages_leave()
    ensures pages { DataPagesLeave packed_form }
    ensures layout { LayoutsStay packed_form }
    ensures records { RecordsStay packed_form }
{
    one_reading();
}
