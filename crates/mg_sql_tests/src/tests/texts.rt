//! Texts of statements: long ones, deep ones, and what they parse to.

use mg_sql::parse;
use mg_statements::Statement;
use std::alloc::Global;
use std::test::Fail;

/// Puts bytes so often behind a text.
pub fn push_many(text: &mut Vec<u8>, bytes: &[u8], times: usize) -> Result<(), Fail> {
    for _ in 0..times {
        text.extend_from_slice(bytes)?;
    }
    Ok(())
}

/// A front, so many open parentheses, what they enclose, as many closing ones, and a back.
pub fn nested(
    alloc: Global,
    front: &[u8],
    levels: usize,
    core: &[u8],
    back: &[u8],
) -> Result<Vec<u8>, Fail> {
    let mut text = Vec::new(alloc);
    text.extend_from_slice(front)?;
    push_many(&mut text, b"(", levels)?;
    text.extend_from_slice(core)?;
    push_many(&mut text, b")", levels)?;
    text.extend_from_slice(back)?;
    Ok(text)
}

/// The statement of a text that is one. Whoever has it lets it go by `let_go`: written out at each
/// exit of a function, the end of a statement is dearer to prove than all else.
pub fn statement_of(alloc: Global, text: &[u8]) -> Result<Statement, Fail> {
    match parse(alloc, text) {
        Ok(statement) => Ok(statement),
        Err(_) => Err("no statement")?,
    }
}
