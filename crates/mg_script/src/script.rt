//! A script is read line by line.

ghost use Rattle.std.specs.Prelude.{◌≡◌, ◌<◌, ◌^◌, IfOk, length};
ghost use Rattle.mg_script.specs.Lines.{IsScript};

use crate::line::Line;
use crate::reading::read_line;
use crate::splitting::first_line;
use mg_base::Memory;
use std::alloc::Global;
use std::marker::Model;

/// The lines of a script, in their order.
#[derive(Debug, Drop)]
pub struct Script {
    lines: Vec<Line>,
}

impl Model for Script {
    ghost use Rattle.std.specs.Prelude.{List};
    ghost use Rattle.mg_script.specs.declared.line.Line.{Line};

    ghost Value = { List Line };

    ghost view = { λ s. s.lines.items };
}

impl Script {
    /// The lines.
    pub fn as_slice(&self) -> &[Line]
        ensures { result.now ≡ self.now }
    {
        &self.lines
    }
}

/// Reads a script: each of its lines is of one form, or bad.
///
/// # Errors
///
/// `Memory` only.
pub fn read_script(alloc: Global, script: &[u8]) -> Result<Script, Memory>
    requires { length script.now < 2 ^ 31 }
    ensures { IfOk result (IsScript script.now) }
{
    let mut lines = Vec::new(alloc);
    let mut number = 1u32;
    let mut rest = script;
    while !rest.is_empty() {
        let (line, later) = first_line(rest);
        lines.push(Line {
            number,
            kind: read_line(alloc, line)?,
        })?;
        number += 1;
        rest = later;
    }
    Ok(Script { lines })
}
