//! The answer of a session that has waited too long.

use mg_base::TxNo;
use mg_interleavings::{Answered, answered_text};
use mg_script::Session;
use std::alloc::Global;
use std::test::Fail;

/// The text of session B's answer that it has waited too long for transaction 2.
fn text(alloc: Global) -> Result<Vec<u8>, Fail> {
    let mut out = Vec::new(alloc);
    answered_text(Session(1), &Answered::LockTimeout { on: TxNo(2) }, &mut out)?;
    Ok(out)
}

#[test]
fn a_session_that_has_waited_too_long_is_told_for_whom(rt: HostRuntime) -> Result<(), Fail> {
    let text = text(rt.alloc())?;
    assert!(rt; text.as_slice() == "B: LOCK TIMEOUT ON 2\n".as_bytes());
    Ok(())
}
