//! Packing: the writer goes from the left, a run at a time.

ghost use Rattle.std.specs.Prelude.{◌≡◌, ◌<◌, ◌≤◌, ◌++◌, length, drop, OnOk, OnErr, IfOk};
ghost use Rattle.mg_rle.specs.Writing.{AppendsPacked, KeepsFront, IsFrontRepeat, IsFrontLiteral, PutsRun};

use crate::run::{LEAST_REPEAT, MOST_LITERAL, MOST_REPEAT, triple_begins};
use mg_base::Memory;

/// How many equal bytes stand at the front, at most as many as a repeat takes.
fn repeat_len(plain: &[u8]) -> usize
    requires { 0 < length plain.now }
    ensures { IsFrontRepeat plain.now result }
{
    let mut count = 1;
    while count < plain.len() && count < MOST_REPEAT && plain[count] == plain[0] {
        count += 1;
    }
    count
}

/// How many bytes stand before the place where three equal ones begin, at most as many as a literal
/// takes.
fn literal_len(plain: &[u8]) -> usize
    ensures { IsFrontLiteral plain.now result }
{
    let mut count = 0;
    while count < plain.len() && count < MOST_LITERAL && !triple_begins(plain, count) {
        count += 1;
    }
    count
}

/// Appends the first run of the plain text, and gives the number of bytes that it stands for.
fn put_run(plain: &[u8], out: &mut Vec<u8>) -> Result<usize, Memory>
    requires { 0 < length plain.now }
    ensures ok { IfOk result (λ count. PutsRun out.old.items out.new.items plain.now count) }
    ensures front { KeepsFront out.old.items out.new.items }
{
    if triple_begins(plain, 0) {
        let count = repeat_len(plain);
        out.push((256 - count) as u8)?;
        out.push(plain[0])?;
        Ok(count)
    } else {
        let count = literal_len(plain);
        out.push(count as u8)?;
        out.extend_from_slice(&plain[..count])?;
        Ok(count)
    }
}

/// Appends the runs of the plain text. Where memory runs out, some of them stand in `out`.
fn put_runs(plain: &[u8], out: &mut Vec<u8>) -> Result<(), Memory>
    ensures ok { OnOk result (AppendsPacked out.old.items out.new.items plain.now) }
    ensures front { KeepsFront out.old.items out.new.items }
{
    let mut rest = plain;
    while !rest.is_empty() {
        let count = put_run(rest, out)?;
        (_, rest) = rest.split_at(count);
    }
    Ok(())
}

/// Appends the one packed text of `plain`.
///
/// # Errors
///
/// `Memory` only. Then `out` is as before.
pub fn pack(plain: &[u8], out: &mut Vec<u8>) -> Result<(), Memory>
    ensures ok { OnOk result (AppendsPacked out.old.items out.new.items plain.now) }
    ensures err { OnErr result (out.new.items ≡ out.old.items) }
{
    let before = out.len();
    let result = put_runs(plain, out);
    if result.is_err() {
        out.truncate(before);
    }
    result
}
