//! A keeper of records, the sessions that share it, and how far each has come in its script.

ghost use Rattle.std.specs.Prelude.{◌≡◌, ◌≤◌, ◌<◌, ℕ, IfNone, None, [], false, true, length};
ghost use Rattle.mg_model.specs.declared.opening.Opening.{Opening};
ghost use Rattle.mg_model.specs.Answers.{is_active};
ghost use Rattle.mg_model.specs.Machine.{state_of};
ghost use Rattle.mg_script.specs.declared.line.TheConstants.{SESSIONS};
ghost use Rattle.mg_pending.specs.Transactions.{no_transactions};
ghost use Rattle.mg_pending.specs.Statements.{IsFirstAt, PassesNowhere, is_its};
ghost use Rattle.mg_floor.specs.Boards.{HasRoom, IsAtStart, IsBoard};
ghost use Rattle.mg_floor.specs.Coming.{Comes, HavePassed, IsStage, Stands};
ghost use Rattle.mg_floor.specs.Scripts.{AreOwnLines};
ghost use Rattle.mg_floor.specs.Ends.{told_after};
ghost use Rattle.mg_floor.specs.Waiting.{IsReleasedAt, WaitsAt, still_on};

use crate::begun::begun_by;
use crate::board::Board;
use crate::floor::Told;
use crate::stepping::{step_at, try_once};
use crate::taking_up::take_up;
use mg_base::TxNo;
use mg_courses::{Tends, Work};
use mg_interleavings::Answered;
use mg_model::Refusal;
use mg_pending::{Sessions, Transaction, Transactions, is_busy};
use mg_script::{LineKind, Session};
use mg_turn::End;

/// How often a session looks whether a transaction has ended, before its statement is tried once more (the limit of the
/// answer LOCK TIMEOUT; chosen).
pub const MOST_POLLS: u32 = 10_000;

/// A keeper of records, the sessions that share it, and how far each has come in its script.
#[derive(Drop)]
pub struct Stage<R, P> {
    pub keeper: R,
    /// The size of a page, in bytes.
    pub size: u32,
    pub sessions: Sessions<P>,
    pub board: Board,
}

impl<R: Tends> Stage<R, R::Run>
where
    R::Run: Drop,
{
    /// The stage before any step, where no session has a transaction. It takes no memory.
    pub fn open(keeper: R, size: u32, sessions: Sessions<R::Run>, board: Board) -> Stage<R, R::Run>
        requires free { (session : ℕ) → R.meaning.is_free keeper session }
        requires size { R.meaning.is_size keeper size ≡ true }
        requires transactions { sessions.transactions ≡ no_transactions }
        requires pending { sessions.pending.items ≡ [] }
        requires board { IsBoard board × IsAtStart board × AreOwnLines board.scripts.items }
        requires few { length board.scripts.items ≤ SESSIONS }
        ensures keeper { result.keeper ≡ keeper }
        ensures size { result.size ≡ size }
        ensures board { result.board ≡ board }
        ensures ready { IsStage R.meaning R.runs result }
        ensures stands { (o : Opening) → R.meaning.stands keeper o []
            → ((t : ℕ) → is_active (state_of o [] t) ≡ false) → Stands R.meaning R.runs result o [] [] }
    {
        Stage {
            keeper,
            size,
            sessions,
            board,
        }
    }

    /// How many sessions have a script.
    pub fn count(&self) -> u8
        requires { IsStage R.meaning R.runs self.now }
        ensures { result ≡ length self.now.board.scripts.items }
    {
        self.board.scripts.len() as u8
    }

    /// The first session that is not at its end, or whose statement has begun.
    pub fn first_left(&self) -> Option<Session>
        requires { IsStage R.meaning R.runs self.now }
        ensures { IfNone result (HavePassed self.now) }
    {
        match self.sessions.pending.first() {
            Some(statement) => Some(statement.session),
            None => self.board.first_left(),
        }
    }

    /// Stops the run for want of memory.
    pub fn stop_short(&mut self)
        requires { IsStage R.meaning R.runs self.old }
        ensures comes { Comes R.meaning R.runs self.old self.new }
        ensures ready { IsStage R.meaning R.runs self.new }
    {
        match self.board.stopped {
            Some(_) => {}
            None => self.board.stopped = Some(Refusal::Memory),
        }
    }

    /// The next step of a session: it takes up its next line, or its statement that has begun takes a step. One that
    /// waits for a transaction that is live still does so only where the session has looked so often in vain, and then
    /// it is tried once. Nothing is done where the session is at its end, or the run has stopped.
    pub fn next(&mut self, session: Session, polls: u32) -> Told
        requires { IsStage R.meaning R.runs self.old }
        ensures comes { Comes R.meaning R.runs self.old self.new }
        ensures ready { IsStage R.meaning R.runs self.new }
    {
        match self.board.stopped {
            Some(_) => Told::Stopped,
            None => self.due(session, polls),
        }
    }

    // The step of a session that is due, if it has a script.
    fn due(&mut self, session: Session, polls: u32) -> Told
        requires stage { IsStage R.meaning R.runs self.old }
        requires flows { self.old.board.stopped ≡ None }
        ensures comes { Comes R.meaning R.runs self.old self.new }
        ensures ready { IsStage R.meaning R.runs self.new }
    {
        if session.0 as usize >= self.board.scripts.len() {
            return Told::Finished;
        }
        self.make_room(session, polls)
    }

    // Room for an answer is made first: where there is none, the run stops before the step.
    fn make_room(&mut self, session: Session, polls: u32) -> Told
        requires stage { IsStage R.meaning R.runs self.old }
        requires flows { self.old.board.stopped ≡ None }
        requires inside { session.0 < length self.old.board.scripts.items }
        ensures comes { Comes R.meaning R.runs self.old self.new }
        ensures ready { IsStage R.meaning R.runs self.new }
    {
        match self.board.reserve(session) {
            Ok(()) => self.step(session, polls),
            Err(_) => {
                self.stop_short();
                Told::Stopped
            }
        }
    }

    // The step of a session for whose answer there is room.
    fn step(&mut self, session: Session, polls: u32) -> Told
        requires stage { IsStage R.meaning R.runs self.old }
        requires flows { self.old.board.stopped ≡ None }
        requires inside { session.0 < length self.old.board.scripts.items }
        requires room { HasRoom self.old.board session.0 }
        ensures comes { Comes R.meaning R.runs self.old self.new }
        ensures ready { IsStage R.meaning R.runs self.new }
    {
        match begun_by(&self.sessions.pending, session) {
            Some(place) => self.go_on(session, place, polls),
            None => self.take_line(session),
        }
    }

    // The statement of a session goes on, unless it waits still.
    fn go_on(&mut self, session: Session, place: usize, polls: u32) -> Told
        requires stage { IsStage R.meaning R.runs self.old }
        requires flows { self.old.board.stopped ≡ None }
        requires inside { session.0 < length self.old.board.scripts.items }
        requires room { HasRoom self.old.board session.0 }
        requires first { IsFirstAt (is_its session.0) self.old.sessions.pending.items place }
        ensures comes { Comes R.meaning R.runs self.old self.new }
        ensures ready { IsStage R.meaning R.runs self.new }
    {
        let waits_on = self.sessions.pending[place].waits_on;
        match still_waits(waits_on, &self.sessions.transactions) {
            None => self.take_step(session, place),
            Some(on) => {
                if polls < MOST_POLLS {
                    return Told::Waits(on);
                }
                self.try_again(session, place, on)
            }
        }
    }

    // The statement of a session, which does not wait or whose waiting is over, takes a step.
    fn take_step(&mut self, session: Session, place: usize) -> Told
        requires stage { IsStage R.meaning R.runs self.old }
        requires flows { self.old.board.stopped ≡ None }
        requires inside { session.0 < length self.old.board.scripts.items }
        requires room { HasRoom self.old.board session.0 }
        requires first { IsFirstAt (is_its session.0) self.old.sessions.pending.items place }
        requires released { IsReleasedAt self.old.sessions.transactions self.old.sessions.pending.items place }
        ensures comes { Comes R.meaning R.runs self.old self.new }
        ensures ready { IsStage R.meaning R.runs self.new }
    {
        let alloc = *self.board.places.allocator();
        let own = self.sessions.transactions.of(session);
        let end = end_of(&self.sessions.pending[place].work);
        let reply = step_at(&mut self.keeper, alloc, &mut self.sessions, place);
        let busy = is_busy(&self.sessions.pending, session);
        self.board.settle(session, busy, Answered::Replied(reply));
        told(own, self.sessions.transactions.of(session), end)
    }

    // The statement of a session, which waits for a live transaction, is tried once more.
    fn try_again(&mut self, session: Session, place: usize, on: TxNo) -> Told
        requires stage { IsStage R.meaning R.runs self.old }
        requires flows { self.old.board.stopped ≡ None }
        requires inside { session.0 < length self.old.board.scripts.items }
        requires room { HasRoom self.old.board session.0 }
        requires first { IsFirstAt (is_its session.0) self.old.sessions.pending.items place }
        requires waits { WaitsAt self.old.sessions.transactions self.old.sessions.pending.items place on }
        ensures comes { Comes R.meaning R.runs self.old self.new }
        ensures ready { IsStage R.meaning R.runs self.new }
    {
        let alloc = *self.board.places.allocator();
        let own = self.sessions.transactions.of(session);
        let answered = try_once(&mut self.keeper, alloc, &mut self.sessions, place, on);
        let busy = is_busy(&self.sessions.pending, session);
        self.board.settle(session, busy, answered);
        told(own, self.sessions.transactions.of(session), End::Dead)
    }

    // A session that has no statement begun takes up its next line.
    fn take_line(&mut self, session: Session) -> Told
        requires stage { IsStage R.meaning R.runs self.old }
        requires flows { self.old.board.stopped ≡ None }
        requires inside { session.0 < length self.old.board.scripts.items }
        requires room { HasRoom self.old.board session.0 }
        requires free { PassesNowhere (is_its session.0) self.old.sessions.pending.items }
        ensures comes { Comes R.meaning R.runs self.old self.new }
        ensures ready { IsStage R.meaning R.runs self.new }
    {
        let alloc = *self.board.places.allocator();
        let own = self.sessions.transactions.of(session);
        let Some(line) = self.board.line_at(session) else {
            return Told::Finished;
        };
        match &line.kind {
            LineKind::Sql { text, .. } => {
                let reply = take_up(
                    &mut self.keeper,
                    alloc,
                    &mut self.sessions,
                    self.size,
                    session,
                    text.as_slice(),
                );
                let busy = is_busy(&self.sessions.pending, session);
                self.board.settle(session, busy, Answered::Replied(reply));
                told(own, self.sessions.transactions.of(session), End::Dead)
            }
            LineKind::Silent => {
                self.board.pass(session);
                Told::GoesOn
            }
            // No session has such a line.
            _ => Told::Finished,
        }
    }

    /// Writes one changed page, if there is one. A fault of the disk stops the run.
    pub fn flush(&mut self) -> bool
        requires { IsStage R.meaning R.runs self.old }
        ensures comes { Comes R.meaning R.runs self.old self.new }
        ensures ready { IsStage R.meaning R.runs self.new }
    {
        match self.board.stopped {
            Some(_) => false,
            None => self.write(),
        }
    }

    // Writes one changed page, where the run goes on.
    fn write(&mut self) -> bool
        requires stage { IsStage R.meaning R.runs self.old }
        requires flows { self.old.board.stopped ≡ None }
        ensures comes { Comes R.meaning R.runs self.old self.new }
        ensures ready { IsStage R.meaning R.runs self.new }
    {
        match self.keeper.write_page() {
            Ok(written) => written,
            Err(refusal) => {
                self.board.stopped = Some(refusal);
                false
            }
        }
    }
}

// The live transaction that a statement waits for still.
fn still_waits(waits_on: Option<TxNo>, transactions: &Transactions) -> Option<TxNo>
    ensures { result ≡ still_on transactions.now waits_on }
{
    match waits_on {
        Some(on) if transactions.is_live(on) => Some(on),
        _ => None,
    }
}

// How a transaction ends that ends with this statement.
fn end_of<P>(work: &Work<P>) -> End {
    match work {
        Work::Commit { .. } => End::Committed,
        Work::Statement(_) => End::Dead,
    }
}

// What is told of a step, by the transaction of its session before and behind it.
fn told(before: Option<Transaction>, behind: Option<Transaction>, end: End) -> Told
    ensures { result ≡ told_after before behind end }
{
    match before {
        Some(own) if behind.is_none() => Told::Over { t: own.number, end },
        _ => Told::GoesOn,
    }
}
