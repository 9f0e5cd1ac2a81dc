//! Which refusals of an undoing end its transaction.

ghost use Rattle.std.specs.Prelude.{◌≡◌};
ghost use Rattle.mg_records.specs.TakingBack.{is_given_up};

use mg_model::Refusal;

/// Tells whether a transaction that was to be taken back is rolled back after this refusal: pages are
/// short, a page can't be read or is damaged, or memory is short.
pub fn gives_up(refusal: Refusal) -> bool
    ensures { result ≡ is_given_up refusal }
{
    matches!(
        refusal,
        Refusal::DatabaseFull { .. }
            | Refusal::DiskRead { .. }
            | Refusal::Damaged { .. }
            | Refusal::Memory
    )
}
