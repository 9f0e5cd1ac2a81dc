//! Which refusals tell a fault of the disk, and which of two is answered.

ghost use Rattle.std.specs.Prelude.{◌≡◌, Some};
ghost use Rattle.mg_faults.specs.Faults.{tells_failed_write as tells_failed_write_of, tells_fault as tells_fault_of, worse as worse_of};

use mg_model::Refusal;

/// Tells whether a refusal says that the disk failed in the call: a read of it, or a page write or its settling.
/// `Offline` says that it failed in an earlier one.
pub fn tells_fault(refusal: Refusal) -> bool
    ensures { result ≡ tells_fault_of (Some refusal) }
{
    matches!(
        refusal,
        Refusal::DiskRead { .. } | Refusal::DiskWrite { .. }
    )
}

/// Tells whether a refusal says that a page write failed in the call, or its settling.
pub fn tells_failed_write(refusal: Refusal) -> bool
    ensures { result ≡ tells_failed_write_of (Some refusal) }
{
    matches!(refusal, Refusal::DiskWrite { .. })
}

/// What is answered where a call was refused first, and what was to take it back was refused later: the later
/// refusal, but for a fault of the disk, which stays told. A failed read is not told where a page write failed behind it.
pub fn worse(first: Refusal, later: Refusal) -> Refusal
    ensures { result ≡ worse_of first later }
{
    if tells_fault(first) && !tells_failed_write(later) {
        first
    } else {
        later
    }
}
