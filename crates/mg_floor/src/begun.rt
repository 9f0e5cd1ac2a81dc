//! The statement of a session that has begun.

ghost use Rattle.std.specs.Prelude.{◌≡◌, IfSome, IfNone};
ghost use Rattle.mg_pending.specs.Statements.{IsFirstAt, PassesNowhere, is_its};

use mg_pending::Pending;
use mg_script::Session;

/// The place of the statement of a session that goes on later, whether it is held or waits.
pub(crate) fn begun_by<P>(pending: &Vec<Pending<P>>, session: Session) -> Option<usize>
    ensures some { IfSome result (IsFirstAt (is_its session.0) pending.now.items) }
    ensures none { IfNone result (PassesNowhere (is_its session.0) pending.now.items) }
{
    for place in 0..pending.len() {
        if is_own(&pending[place], session) {
            return Some(place);
        }
    }
    None
}

// Tells whether a statement is this session's.
fn is_own<P>(statement: &Pending<P>, session: Session) -> bool
    ensures { result ≡ is_its session.0 statement.now }
{
    statement.session.0 == session.0
}
