//! The list of a disk, or why there is none.

ghost use Rattle.std.specs.Prelude.{◌≡◌, MatchResult, Some, nat_lt};
ghost use Rattle.mg_base.specs.Asking.{AsksReads};
ghost use Rattle.mg_base.specs.Image.{Image};
ghost use Rattle.mg_base.specs.declared.geometry.TheConstants.{GREATEST_LIMIT};
ghost use Rattle.mg_findings.specs.declared.finding.Rule.TheVariants.{Damage};
ghost use Rattle.mg_limbo_list.specs.Limbo.{AscendFrom};
ghost use Rattle.mg_pool.specs.Pool.{KeepsContent};
ghost use Rattle.mg_run_ends.specs.Ends.{FailsWith};
ghost use Rattle.mg_limbo_report.specs.Report.{IsCareRefusal, IsCause, IsDamage, IsToldOf, refusal_by, tells_kind as tells_kind_of};

use mg_base::{Disk, Field, TxNo};
use mg_findings::{Finding, Rule};
use mg_limbo_list::{Listed, list_limbo};
use mg_model::Refusal;
use mg_overview::{ReadFault, read_image};
use std::alloc::Global;

/// The field of a damage.
pub fn field_of(what: Rule) -> Field
    requires { IsDamage what }
    ensures { what ≡ Damage result }
{
    match what {
        Rule::Damage(field) => field,
        _ => Field::Presence,
    }
}

/// Whether a field tells of which kind a file is.
fn tells_kind(field: Field) -> bool
    ensures { result ≡ tells_kind_of field }
{
    match field {
        Field::Magic | Field::Major | Field::Minor | Field::PageSize => true,
        _ => false,
    }
}

/// The refusal for a damage.
pub fn refusal_of(finding: Finding, field: Field) -> Refusal
    ensures { result ≡ refusal_by field finding }
{
    if tells_kind(field) {
        Refusal::NotADatabase {
            field,
            found: finding.found,
        }
    } else {
        Refusal::Damaged {
            page: finding.page,
            field,
            found: finding.found,
            wanted: finding.wanted,
        }
    }
}

/// The transactions in limbo of a disk, ascending.
///
/// # Errors
///
/// `DiskRead` exactly where the disk's count of faults rose; `NotADatabase` or `Damaged` with the least finding of the
/// header and the transaction inventory; `Memory`.
pub(crate) fn list_disk<D: Disk>(alloc: Global, disk: &mut D) -> Result<Vec<TxNo>, Refusal>
    ensures content { KeepsContent D.meaning disk.old disk.new }
    ensures reads { AsksReads D.meaning disk.old disk.new GREATEST_LIMIT (λ n. nat_lt n GREATEST_LIMIT) }
    ensures fault { MatchResult result (λ list. D.meaning.faults disk.new ≡ D.meaning.faults disk.old)
        (FailsWith D.meaning disk.old disk.new) }
    ensures kind { MatchResult result (λ list. AscendFrom 0 list.items) IsCareRefusal }
    ensures says { (image : Image) → D.meaning.held disk.old ≡ Some image → MatchResult result
        (λ list. IsToldOf D.meaning disk.new image list.items) (IsCause D.meaning disk.new image) }
{
    let image = match read_image(alloc, disk) {
        Ok(image) => image,
        Err(ReadFault::Disk) => return Err(Refusal::DiskRead { faults: 1 }),
        Err(ReadFault::Memory) => return Err(Refusal::Memory),
    };
    let listed = match list_limbo(alloc, image.size, image.pages.as_slice()) {
        Ok(listed) => listed,
        Err(_) => return Err(Refusal::Memory),
    };
    match listed {
        Listed::Limbo(list) => Ok(list),
        Listed::Damaged(finding) => Err(refusal_of(finding, field_of(finding.what))),
    }
}
