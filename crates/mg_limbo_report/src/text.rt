//! The lines of the command.

ghost use Rattle.std.specs.Prelude.{◌≡◌, ◌++◌, OnOk, true};
ghost use Rattle.mg_limbo_report.specs.Report.{care_text, is_fixed as is_fixed_of, limbo_line, limbo_text};

use mg_base::{Memory, TxNo};
use mg_model::Refusal;
use mg_script::{put_number, put_refusal, put_word};

/// Appends the line of a transaction in limbo.
///
/// # Errors
///
/// `Memory` only. Then a part of it may stand in `out`.
fn put_one(out: &mut Vec<u8>, t: TxNo) -> Result<(), Memory>
    ensures { OnOk result (out.new.items ≡ out.old.items ++ limbo_line t) }
{
    put_word(out, "LIMBO ")?;
    put_number(out, u64::from(t.0))?;
    put_word(out, "\n")
}

/// Appends the lines of the transactions in limbo.
///
/// # Errors
///
/// `Memory` only. Then a part of them may stand in `out`.
pub(crate) fn put_list(out: &mut Vec<u8>, list: &[TxNo]) -> Result<(), Memory>
    ensures { OnOk result (out.new.items ≡ out.old.items ++ limbo_text list.now) }
{
    let mut rest = list;
    while let Some((t, later)) = rest.split_first() {
        put_one(out, *t)?;
        rest = later;
    }
    Ok(())
}

/// Appends the line of a refusal.
///
/// # Errors
///
/// `Memory` only. Then a part of it may stand in `out`.
pub(crate) fn put_refused(out: &mut Vec<u8>, refusal: Refusal) -> Result<(), Memory>
    ensures { OnOk result (out.new.items ≡ out.old.items ++ care_text refusal) }
{
    put_word(out, "gfix: ")?;
    put_refusal(out, refusal)?;
    put_word(out, "\n")
}

/// Whether the line of a refusal is fixed, and takes no memory.
pub(crate) fn is_fixed(refusal: Refusal) -> bool
    ensures { result ≡ is_fixed_of refusal }
{
    match refusal {
        Refusal::DiskRead { .. } | Refusal::Memory => true,
        _ => false,
    }
}

/// The line of such a refusal.
pub(crate) fn fixed_line(refusal: Refusal) -> &'static [u8]
    requires { is_fixed_of refusal ≡ true }
    ensures { result.now ≡ care_text refusal }
{
    match refusal {
        Refusal::DiskRead { .. } => b"gfix: DISK READ FAULT\n",
        _ => b"gfix: OUT OF MEMORY\n",
    }
}
