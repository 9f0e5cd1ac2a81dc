//! A transaction inventory page as a whole: how it begins, and what is tested.

ghost use Rattle.std.specs.Prelude.{◌≡◌, ◌≤◌, ℕ, length};
ghost use Rattle.mg_base.specs.Checks.{PassesAll, verdict};
ghost use Rattle.mg_tip.specs.TipPage.{new_tip_page, prev_in, state_in, tip_checks};

use mg_base::{
    Damaged, Field, PageNo, TxState, check_common, check_field, get_u32, new_common, put_u32,
};

/// The kind of a transaction inventory page.
pub const TIP_KIND: u8 = 3;
/// Where a page names the transaction inventory page before it, width 4, 0 for none.
pub const PREV_AT: usize = 16;
/// Where the states begin, four to a byte.
pub const STATES_AT: usize = 20;

// The numbers of the file format, written once more: a slip in one of them is refused.
const _: () = prove!(TIP_KIND == 3);

const _: () = prove!(PREV_AT == 16);

const _: () = prove!(STATES_AT == 20);

/// Makes `b` a transaction inventory page on which every state is Active.
///
/// `seq` is its place in the chain, `prev` the page before it, 0 where it is the first.
/// Source: Firebird ODS, transaction inventory page.
#[tactic(auto, unfolding(crate::specs::TipPage::new_tip_page))]
pub fn new_tip(b: &mut [u8], page: PageNo, seq: u32, prev: PageNo)
    requires { STATES_AT ≤ length b.old }
    ensures page { b.new ≡ new_tip_page (length b.old) page.0 seq prev.0 }
    ensures active { (place : ℕ) → state_in b.new place ≡ TxState.Active }
    ensures prev { prev_in b.new ≡ prev.0 }
    ensures passes { (seq ≡ 0 → prev.0 ≡ 0) → PassesAll (tip_checks b.new page.0 seq) }
{
    new_common(b, page, TIP_KIND, 0, seq);
    put_u32(b, PREV_AT, prev.0);
}

/// The transaction inventory page before this one, page 0 where it is the first.
pub fn prev_of(b: &[u8]) -> PageNo
    requires { STATES_AT ≤ length b.now }
    ensures { result.0 ≡ prev_in b.now }
{
    PageNo(get_u32(b, PREV_AT))
}

/// Tests a transaction inventory page. No state is refused.
///
/// `page` is the number that the page was read under, `seq` its place in the chain.
///
/// # Errors
///
/// `Damaged` at the first field that differs: those of the common part, with owner 0; then, where
/// `seq` is 0, the link to the page before, of which there is none.
#[tactic(auto, unfolding(crate::specs::TipPage::tip_checks))]
pub fn check_tip(b: &[u8], page: PageNo, seq: u32) -> Result<(), Damaged>
    requires { STATES_AT ≤ length b.now }
    ensures { result ≡ verdict page (tip_checks b.now page.0 seq) }
{
    check_common(b, page, TIP_KIND, 0, seq)?;
    if seq == 0 {
        check_field(page, Field::Link, get_u32(b, PREV_AT), 0)
    } else {
        Ok(())
    }
}
