//! The sessions of a script.

ghost use Rattle.std.specs.Prelude.{◌≡◌, ◌<◌, [], IfOk, OnOk, slice_index_or, length, vec_len, vec_capacity};
ghost use Rattle.std.specs.List.{remove};
ghost use Rattle.mg_script.specs.declared.line.TheConstants.{SESSIONS};
ghost use Rattle.mg_courses.specs.declared.statements.Stepped.TheVariants.{Ended};
ghost use Rattle.mg_pending.specs.declared.transactions.TheConstants.{PLACES};
ghost use Rattle.mg_pending.specs.Transactions.{no_transactions};
ghost use Rattle.mg_pending.specs.Statements.{transactions_after, pending_after, reply_of_step};

use crate::pending::Pending;
use crate::transactions::{PLACES, Transactions};
use mg_base::{Memory, TxNo};
use mg_courses::{Ending, Stepped, Work};
use mg_model::Refusal;
use mg_rows::StatementFault;
use mg_script::{Reply, Session};
use std::alloc::Global;

/// The sessions of a script: the live transaction of each, and the statements that go on later, those
/// that wait in the order in which they came to wait.
#[derive(Drop)]
pub struct Sessions<P> {
    pub transactions: Transactions,
    pub pending: Vec<Pending<P>>,
}

impl<P> Sessions<P> {
    /// No session has a transaction.
    ///
    /// # Errors
    ///
    /// `Memory` only.
    pub fn new(alloc: Global) -> Result<Sessions<P>, Memory>
        ensures transactions { IfOk result (λ sessions. sessions.transactions ≡ no_transactions) }
        ensures pending { IfOk result (λ sessions. sessions.pending.items ≡ []) }
    {
        Ok(Sessions {
            transactions: Transactions::new(alloc)?,
            pending: Vec::new(alloc),
        })
    }

    /// Makes room for one statement more that goes on later.
    ///
    /// # Errors
    ///
    /// `Memory` only.
    pub fn reserve(&mut self) -> Result<(), Memory>
        ensures transactions { self.new.transactions ≡ self.old.transactions }
        ensures pending { self.new.pending.items ≡ self.old.pending.items }
        ensures room { OnOk result (vec_len self.new.pending < vec_capacity self.new.pending) }
    {
        self.pending.reserve(1)?;
        Ok(())
    }

    /// Takes a statement out that goes on now. There is room for it then.
    pub fn take_out(&mut self, place: usize) -> Pending<P>
        requires { place < length self.old.pending.items }
        ensures transactions { self.new.transactions ≡ self.old.transactions }
        ensures pending { self.new.pending.items ≡ remove self.old.pending.items place }
        ensures taken { result ≡ slice_index_or self.old.pending.items place result }
        ensures room { vec_len self.new.pending < vec_capacity self.new.pending }
    {
        self.pending.remove(place)
    }
}

impl<P: Drop> Sessions<P> {
    /// Keeps what a statement came to that has begun: one that goes on later comes behind the others,
    /// and where its transaction is over, the session has none. It tells what is answered.
    pub fn keep(
        &mut self,
        session: Session,
        transaction: TxNo,
        work: Work<P>,
        stepped: Stepped,
    ) -> Reply
        requires room { vec_len self.old.pending < vec_capacity self.old.pending }
        requires lettered { session.0 < SESSIONS }
        ensures transactions { self.new.transactions
            ≡ transactions_after session.0 stepped self.old.transactions }
        ensures pending { self.new.pending.items
            ≡ pending_after session transaction work stepped self.old.pending.items }
        ensures reply { result ≡ reply_of_step stepped }
    {
        match stepped {
            Stepped::More => {
                self.pending.push_reserved(Pending {
                    session,
                    transaction,
                    work,
                    waits_on: None,
                });
                Reply::Held
            }
            Stepped::Waits(on) => {
                self.pending.push_reserved(Pending {
                    session,
                    transaction,
                    work,
                    waits_on: Some(on),
                });
                Reply::No(StatementFault::Engine(Refusal::Waits { on }))
            }
            Stepped::Ended(ending) => self.end(session, ending),
        }
    }

    /// A statement of a session is at its end. It tells what is answered.
    pub fn end(&mut self, session: Session, ending: Ending) -> Reply
        requires lettered { session.0 < PLACES }
        ensures transactions { self.new.transactions
            ≡ transactions_after session.0 (Ended ending) self.old.transactions }
        ensures pending { self.new.pending.items ≡ self.old.pending.items }
        ensures reply { result ≡ ending.reply }
    {
        if ending.over {
            self.transactions.end(session);
        }
        ending.reply
    }
}
