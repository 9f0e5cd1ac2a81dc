//! The row that the versions of a record show.

ghost use Rattle.std.specs.Prelude.{◌≡◌, IfOk, None, Some, if◌then◌else◌};
ghost use Rattle.mg_base.specs.Image.{page_at};
ghost use Rattle.mg_check_inventory.specs.ImagePages.{IsWholeImage};
ghost use Rattle.mg_file_figures.specs.CatalogRows.{committed_at};
ghost use Rattle.mg_image.specs.Records.{shown};
ghost use Rattle.mg_limbo_list.specs.Limbo.{IsTips};
ghost use Rattle.mg_model.specs.Answers.{is_committed as is_committed_state};

use mg_base::{Bytes, Memory, TxState};
use mg_image::Entry;
use mg_limbo_list::Tips;
use mg_value::Row;
use std::alloc::Global;

/// Whether a transaction of which this has become is committed.
fn is_end_committed(state: TxState) -> bool
    ensures { result ≡ is_committed_state state }
{
    match state {
        TxState::Committed => true,
        TxState::Active => false,
        TxState::Limbo => false,
        TxState::Dead => false,
    }
}

/// Whether a transaction of an image is committed.
fn is_committed(size: u32, pages: &[Bytes], tips: &Tips, t: u32) -> bool
    requires image { IsWholeImage size pages.now }
    requires tips { IsTips size pages.now tips.now }
    ensures { result ≡ committed_at size (page_at size pages.now) t }
{
    is_end_committed(tips.state(pages, t))
}

/// The row of a version, if it is no deletion.
fn row_of(alloc: Global, entry: &Entry) -> Result<Option<Row>, Memory>
    ensures { IfOk result (λ row. row
        ≡ (if entry.now.version.deleted then None else Some entry.now.row)) }
{
    if entry.version.deleted {
        Ok(None)
    } else {
        Ok(Some(entry.row.copy(alloc)?))
    }
}

/// The row that the versions of a record of an image show: that of the first committed one, none where it is a deletion.
///
/// # Errors
///
/// `Memory` only.
pub(crate) fn shown_row(
    alloc: Global,
    size: u32,
    pages: &[Bytes],
    tips: &Tips,
    entries: &[Entry],
) -> Result<Option<Row>, Memory>
    requires image { IsWholeImage size pages.now }
    requires tips { IsTips size pages.now tips.now }
    ensures { IfOk result (λ row. row ≡ shown (committed_at size (page_at size pages.now)) entries.now) }
{
    let mut rest = entries;
    while let Some((entry, older)) = rest.split_first() {
        if is_committed(size, pages, tips, entry.version.tx.0) {
            return row_of(alloc, entry);
        }
        rest = older;
    }
    Ok(None)
}
