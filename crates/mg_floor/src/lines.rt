//! The lines of one session.

ghost use Rattle.std.specs.Prelude.{◌≡◌, ◌++◌, ◌∷◌, [], IfOk, OnOk, length};
ghost use Rattle.mg_script.specs.declared.line.TheConstants.{SESSIONS};
ghost use Rattle.mg_floor.specs.Scripts.{AreOwnLines, before, cut_from, own_line as own_line_of, own_of};

use mg_base::Memory;
use mg_script::{Line, LineKind, SESSIONS, Session};
use std::alloc::Global;
use std::marker::Model;

/// The lines that one session obeys, in their order.
#[derive(Debug, Drop)]
pub struct SessionLines {
    lines: Vec<Line>,
}

impl Model for SessionLines {
    ghost use Rattle.std.specs.Prelude.{List};
    ghost use Rattle.mg_script.specs.declared.line.Line.{Line};

    ghost Value = { List Line };

    ghost view = { λ s. s.lines.items };
}

impl SessionLines {
    /// These lines.
    pub fn new(lines: Vec<Line>) -> SessionLines
        ensures { result ≡ lines.items }
    {
        SessionLines { lines }
    }

    /// The lines.
    pub fn as_slice(&self) -> &[Line]
        ensures { result.now ≡ self.now }
    {
        &self.lines
    }
}

/// The statements of each session, A first, in their order. Lines of other forms go nowhere.
///
/// # Errors
///
/// `Memory` only.
pub fn by_session(alloc: Global, lines: &[Line]) -> Result<Vec<SessionLines>, Memory>
    ensures cut { IfOk result (λ scripts. scripts.items ≡ cut_from SESSIONS 0 lines.now) }
    ensures own { IfOk result (λ scripts. AreOwnLines scripts.items) }
    ensures count { IfOk result (λ scripts. length scripts.items ≡ SESSIONS) }
{
    let mut scripts = Vec::new(alloc);
    for session in 0..SESSIONS {
        let own = own_lines(alloc, lines, Session(session))?;
        scripts.push(own)?;
    }
    Ok(scripts)
}

// The statements of a session, in their order.
fn own_lines(alloc: Global, lines: &[Line], session: Session) -> Result<SessionLines, Memory>
    ensures { IfOk result (λ own. own ≡ own_of session.0 lines.now) }
{
    let mut own = Vec::new(alloc);
    let mut rest = lines;
    while let Some((line, later)) = rest.split_first() {
        put_if_own(alloc, line, session, &mut own)?;
        rest = later;
    }
    Ok(SessionLines { lines: own })
}

// Puts a copy of a line behind others, where it is a statement of this session.
fn put_if_own(
    alloc: Global,
    line: &Line,
    session: Session,
    own: &mut Vec<Line>,
) -> Result<(), Memory>
    ensures { OnOk result (own.new.items ≡ own.old.items ++ before (own_line_of session.0 line.now) []) }
{
    match own_line(alloc, line, session)? {
        Some(copy) => put_line(own, copy),
        None => Ok(()),
    }
}

// Puts a line behind others.
fn put_line(own: &mut Vec<Line>, line: Line) -> Result<(), Memory>
    ensures { OnOk result (own.new.items ≡ own.old.items ++ line ∷ []) }
{
    own.push(line)?;
    Ok(())
}

// A copy of a line, where it is a statement of this session.
fn own_line(alloc: Global, line: &Line, session: Session) -> Result<Option<Line>, Memory>
    ensures { IfOk result (λ own. own ≡ own_line_of session.0 line.now) }
{
    match &line.kind {
        LineKind::Sql { session: by, text } => {
            if by.0 != session.0 {
                return Ok(None);
            }
            Ok(Some(Line {
                number: line.number,
                kind: LineKind::Sql {
                    session: *by,
                    text: text.copy(alloc)?,
                },
            }))
        }
        _ => Ok(None),
    }
}
