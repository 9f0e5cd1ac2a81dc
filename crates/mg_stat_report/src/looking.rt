//! The figures of a disk, or why there are none.

ghost use Rattle.std.specs.Prelude.{◌≡◌, MatchResult, Some, nat_lt};
ghost use Rattle.mg_base.specs.Asking.{AsksReads};
ghost use Rattle.mg_base.specs.Image.{Image};
ghost use Rattle.mg_base.specs.declared.geometry.TheConstants.{GREATEST_LIMIT};
ghost use Rattle.mg_limbo_report.specs.Report.{IsCareRefusal};
ghost use Rattle.mg_pool.specs.Pool.{KeepsContent};
ghost use Rattle.mg_run_ends.specs.Ends.{FailsWith};
ghost use Rattle.mg_stat_report.specs.Telling.{AreSomeFigures, IsCause, IsToldOf};

use mg_base::Disk;
use mg_file_figures::{FileFigures, Stated, state_file};
use mg_limbo_report::{field_of, refusal_of};
use mg_model::Refusal;
use mg_overview::{ReadFault, read_image};
use std::alloc::Global;

/// The figures of a disk.
///
/// # Errors
///
/// `DiskRead` exactly where the disk's count of faults rose; `NotADatabase` or `Damaged` with what is found first;
/// `Memory`.
pub(crate) fn look_at<D: Disk>(alloc: Global, disk: &mut D) -> Result<FileFigures, Refusal>
    ensures content { KeepsContent D.meaning disk.old disk.new }
    ensures reads { AsksReads D.meaning disk.old disk.new GREATEST_LIMIT (λ n. nat_lt n GREATEST_LIMIT) }
    ensures fault { MatchResult result (λ it. D.meaning.faults disk.new ≡ D.meaning.faults disk.old)
        (FailsWith D.meaning disk.old disk.new) }
    ensures kind { MatchResult result AreSomeFigures IsCareRefusal }
    ensures says { (image : Image) → D.meaning.held disk.old ≡ Some image → MatchResult result
        (IsToldOf D.meaning disk.new image) (IsCause D.meaning disk.new image) }
{
    let image = match read_image(alloc, disk) {
        Ok(image) => image,
        Err(ReadFault::Disk) => return Err(Refusal::DiskRead { faults: 1 }),
        Err(ReadFault::Memory) => return Err(Refusal::Memory),
    };
    let stated = match state_file(alloc, image.size, image.pages.as_slice()) {
        Ok(stated) => stated,
        Err(_) => return Err(Refusal::Memory),
    };
    match stated {
        Stated::Told(it) => Ok(it),
        Stated::Found(finding) => Err(refusal_of(finding, field_of(finding.what))),
    }
}
