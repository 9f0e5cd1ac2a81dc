//! The script as it comes from the source.

ghost use Rattle.std.specs.Bool.{OnTrue};
ghost use Rattle.std.specs.Prelude.{◌≡◌, ◌≤◌, ◌++◌, length, List, ℕ, Some, IfOk, IfErr, OnOk};
ghost use Rattle.mg_run_ends.specs.declared.ending.TheConstants.{SCRIPT_MOST};
ghost use Rattle.mg_run_ends.specs.Reading.{FailsToRead, ReadsScript};

use crate::ending::{RunEnd, SCRIPT_MOST};
use mg_base::Source;
use mg_model::Refusal;
use mg_script::{Script, read_script};
use std::alloc::Global;

/// How many bytes of a script are asked for at once.
const PIECE: usize = 16_384;

/// Reads a script whole, or to the first byte that is too many, and gives its lines.
///
/// # Errors
///
/// `Stream` where the source failed; `ScriptTooLong` exactly where more than 1,048,576 bytes are left; `Outside` with
/// `Memory`.
pub fn read_lines<S: Source>(alloc: Global, source: &mut S) -> Result<Script, RunEnd>
    ensures { ReadsScript S.meaning source.old source.new result }
{
    let text = match read_text(alloc, source) {
        Ok(text) => text,
        Err(end) => return Err(end),
    };
    match read_script(alloc, text.as_slice()) {
        Ok(script) => Ok(script),
        Err(_) => Err(RunEnd::Outside(Refusal::Memory)),
    }
}

// Reads the bytes of a script.
fn read_text<S: Source>(alloc: Global, source: &mut S) -> Result<Vec<u8>, RunEnd>
    ensures whole { IfOk result (λ text. (script : List ℕ) → S.meaning.left source.old ≡ Some script
        → script ≡ text.items) }
    ensures short { IfOk result (λ text. length text.items ≤ SCRIPT_MOST) }
    ensures steady { OnOk result (S.meaning.faults source.new ≡ S.meaning.faults source.old) }
    ensures fails { IfErr result (FailsToRead S.meaning source.old source.new) }
{
    let mut text = Vec::new(alloc);
    let mut piece = [0u8; PIECE];
    while text.len() <= SCRIPT_MOST {
        let Ok(count) = source.take(&mut piece) else {
            return Err(RunEnd::Stream);
        };
        if count == 0 {
            return Ok(text);
        }
        if !append(&mut text, &piece[..count]) {
            return Err(RunEnd::Outside(Refusal::Memory));
        }
    }
    Err(RunEnd::ScriptTooLong)
}

// Puts a piece behind what was read, and tells whether there was memory for it.
fn append(text: &mut Vec<u8>, piece: &[u8]) -> bool
    ensures { OnTrue result (text.new.items ≡ text.old.items ++ piece.now) }
{
    match text.extend_from_slice(piece) {
        Ok(()) => true,
        Err(_) => false,
    }
}
