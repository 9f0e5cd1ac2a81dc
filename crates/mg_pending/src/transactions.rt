//! The live transactions of sessions.

ghost use Rattle.std.specs.Prelude.{◌≡◌, ◌<◌, IfOk, IfSome, Some, None, set};
ghost use Rattle.mg_pending.specs.declared.transactions.TheConstants.{PLACES};
ghost use Rattle.mg_pending.specs.Transactions.{transaction_at, has_number, is_number, no_transactions};

use mg_base::{Memory, TxNo};
use mg_script::Session;
use std::alloc::Global;
use std::marker::Model;

/// The session of the lines `@put` and `@get`.
pub const SHORTHAND: Session = Session(16);

/// How many sessions there are: A to P, and that of the shorthand lines.
pub const PLACES: usize = 17;

/// A transaction that a session has begun.
#[derive(Clone, Copy, Debug, PartialEq, Eq)]
pub struct Transaction {
    pub number: TxNo,
    pub read_only: bool,
}

/// The live transaction of each session, None where it has none.
#[derive(Drop)]
pub struct Transactions {
    items: Vec<Option<Transaction>>,
}

impl Model for Transactions {
    ghost use Rattle.std.specs.Prelude.{◌≡◌, List, Option, length};
    ghost use Rattle.mg_pending.specs.declared.transactions.Transaction.{Transaction};
    ghost use Rattle.mg_pending.specs.declared.transactions.TheConstants.{PLACES};

    ghost Value = { List (Option Transaction) };

    ghost view = { λ all. all.items.items };

    ghost invariant = { λ all. length all.items.items ≡ PLACES };
}

impl Transactions {
    /// No session has a transaction.
    ///
    /// # Errors
    ///
    /// `Memory` only.
    pub fn new(alloc: Global) -> Result<Transactions, Memory>
        ensures { IfOk result (λ all. all ≡ no_transactions) }
    {
        Ok(Transactions {
            items: Vec::from_slice(alloc, &[None; PLACES])?,
        })
    }

    /// The transaction of a session.
    pub fn of(&self, session: Session) -> Option<Transaction>
        requires { session.0 < PLACES }
        ensures { result ≡ transaction_at self.now session.0 }
    {
        self.items[session.0 as usize]
    }

    /// A session has begun a transaction.
    pub fn begin(&mut self, session: Session, transaction: Transaction)
        requires { session.0 < PLACES }
        ensures { self.new ≡ set self.old session.0 (Some transaction) }
    {
        self.items[session.0 as usize] = Some(transaction);
    }

    /// The transaction of a session has come to its end.
    pub fn end(&mut self, session: Session)
        requires { session.0 < PLACES }
        ensures { self.new ≡ set self.old session.0 None }
    {
        self.items[session.0 as usize] = None;
    }

    /// Tells whether a transaction of this number is live.
    pub fn is_live(&self, number: TxNo) -> bool
        ensures { result ≡ has_number self.now number.0 }
    {
        for place in &self.items {
            if is_its(*place, number) {
                return true;
            }
        }
        false
    }
}

// Tells whether a session's transaction has this number.
fn is_its(place: Option<Transaction>, number: TxNo) -> bool
    ensures { result ≡ is_number number.0 place }
{
    match place {
        Some(transaction) => transaction.number == number,
        None => false,
    }
}
