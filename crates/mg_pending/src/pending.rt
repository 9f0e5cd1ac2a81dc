//! Statements that have begun and go on later.

ghost use Rattle.std.specs.Prelude.{◌≡◌, ◌++◌, ◌∷◌, [], List, IfSome, IfNone};
ghost use Rattle.mg_pending.specs.declared.pending.Pending.{Pending as PendingOf};
ghost use Rattle.mg_pending.specs.Statements.{IsFirstAt, PassesNowhere, has_statement, is_held_by, is_released, is_over};

use crate::transactions::Transactions;
use mg_base::TxNo;
use mg_courses::Work;
use mg_script::Session;

/// A statement of a session that has begun and goes on later.
#[derive(Drop)]
pub struct Pending<P> {
    pub session: Session,
    /// Its transaction.
    pub transaction: TxNo,
    pub work: Work<P>,
    /// The transaction that it waits for, None where it is held.
    pub waits_on: Option<TxNo>,
}

/// Tells whether a session has such a statement.
pub fn is_busy<P>(pending: &Vec<Pending<P>>, session: Session) -> bool
    ensures { result ≡ has_statement session.0 pending.now.items }
{
    for statement in pending {
        if statement.session.0 == session.0 {
            return true;
        }
    }
    false
}

/// The place of the statement that a session holds.
pub fn held_by<P>(pending: &Vec<Pending<P>>, session: Session) -> Option<usize>
    ensures some { IfSome result (IsFirstAt (is_held_by session.0) pending.now.items) }
    ensures none { IfNone result (PassesNowhere (is_held_by session.0) pending.now.items) }
{
    for place in 0..pending.len() {
        if is_held(&pending[place], session) {
            return Some(place);
        }
    }
    None
}

// Tells whether a session holds this statement.
fn is_held<P>(statement: &Pending<P>, session: Session) -> bool
    ensures { result ≡ is_held_by session.0 statement.now }
{
    statement.session.0 == session.0 && statement.waits_on.is_none()
}

/// The place of the first statement whose waiting is over: what it waits for is no live transaction.
pub fn first_released<P>(pending: &Vec<Pending<P>>, transactions: &Transactions) -> Option<usize>
    ensures some { IfSome result (IsFirstAt (is_released transactions.now) pending.now.items) }
    ensures none { IfNone result (PassesNowhere (is_released transactions.now) pending.now.items) }
{
    for place in 0..pending.len() {
        if waiting_is_over(pending[place].waits_on, transactions) {
            return Some(place);
        }
    }
    None
}

/// Tells whether the waiting of the statement that stands last is over.
pub fn is_last_released<P>(pending: &Vec<Pending<P>>, transactions: &Transactions) -> bool
    ensures { (before : List (PendingOf P)) (last : PendingOf P)
        → pending.now.items ≡ before ++ last ∷ [] → result ≡ is_released transactions.now last }
{
    let count = pending.len();
    count > 0 && waiting_is_over(pending[count - 1].waits_on, transactions)
}

// Tells whether what a statement waits for, if it waits, is no live transaction.
fn waiting_is_over(waits_on: Option<TxNo>, transactions: &Transactions) -> bool
    ensures { result ≡ is_over transactions.now waits_on }
{
    match waits_on {
        Some(on) => !transactions.is_live(on),
        None => false,
    }
}
