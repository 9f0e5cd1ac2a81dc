//! At which line each session is, and what it was answered.

ghost use Rattle.std.specs.Prelude.{◌≡◌, ◌<◌, ◌≤◌, ◌+◌, ◌++◌, ◌∷◌, [], IfNone, IfOk, OnOk, length, get_or, replicate, set, vec_len, vec_capacity};
ghost use Rattle.std.specs.List.{slice_get};
ghost use Rattle.std.specs.Option.{option_copied};
ghost use Rattle.mg_script.specs.declared.line.TheConstants.{SESSIONS};
ghost use Rattle.mg_interleavings.specs.Standings.{script_of};
ghost use Rattle.mg_floor.specs.Answering.{stop_behind, stopped_by as stopped_by_flow};
ghost use Rattle.mg_floor.specs.Boards.{AreAllPassed, HasRoom, IsAtStart, IsBoard, Passes, Settles, Stays, lists};

use crate::lines::SessionLines;
use mg_base::Memory;
use mg_interleavings::Answered;
use mg_model::Refusal;
use mg_script::{Line, Session};
use mg_transcript::{Flow, flow_of};
use std::alloc::Global;

/// The scripts of sessions, the line that each is at, and what it was answered.
#[derive(Debug, Drop)]
pub struct Board {
    /// By session.
    pub scripts: Vec<SessionLines>,
    /// How many of its lines each session has passed.
    pub places: Vec<usize>,
    /// What each session was answered at them, the first answer first.
    pub answers: Vec<Vec<Answered>>,
    /// The refusal by which the run has stopped.
    pub stopped: Option<Refusal>,
}

impl Board {
    /// The board of sessions that have passed no line.
    ///
    /// # Errors
    ///
    /// `Memory` only.
    pub fn new(alloc: Global, scripts: Vec<SessionLines>) -> Result<Board, Memory>
        ensures scripts { IfOk result (λ board. board.scripts.items ≡ scripts.items) }
        ensures start { IfOk result IsAtStart }
        ensures board { IfOk result IsBoard }
    {
        let places = Vec::from_elem(alloc, 0usize, scripts.len())?;
        let answers = no_answers(alloc, scripts.len())?;
        Ok(Board {
            scripts,
            places,
            answers,
            stopped: None,
        })
    }

    /// The line that a session is at, None where it is at its end.
    pub fn line_at(&self, session: Session) -> Option<&Line>
        requires board { IsBoard self.now }
        requires inside { session.0 < length self.now.scripts.items }
        ensures { option_copied result
            ≡ slice_get (script_of self.now.scripts.items session.0) (get_or self.now.places.items session.0 0) }
    {
        let place = self.places[session.0 as usize];
        self.scripts[session.0 as usize].as_slice().get(place)
    }

    /// The first session that is not at its end.
    pub(crate) fn first_left(&self) -> Option<Session>
        requires board { IsBoard self.now }
        requires few { length self.now.scripts.items ≤ SESSIONS }
        ensures { IfNone result (AreAllPassed self.now) }
    {
        for session in 0..self.scripts.len() {
            if self.places[session] < self.scripts[session].as_slice().len() {
                return Some(Session(session as u8));
            }
        }
        None
    }

    /// Makes room for one answer more of a session.
    ///
    /// # Errors
    ///
    /// `Memory` only.
    pub(crate) fn reserve(&mut self, session: Session) -> Result<(), Memory>
        requires board { IsBoard self.old }
        requires inside { session.0 < length self.old.scripts.items }
        ensures stays { Stays self.old self.new }
        ensures board { IsBoard self.new }
        ensures room { OnOk result (HasRoom self.new session.0) }
    {
        self.answers[session.0 as usize].reserve(1)?;
        Ok(())
    }

    /// A session passes a line that prints nothing.
    pub(crate) fn pass(&mut self, session: Session)
        requires board { IsBoard self.old }
        requires inside { session.0 < length self.old.scripts.items }
        ensures passes { Passes self.old self.new session.0 }
        ensures board { IsBoard self.new }
    {
        pass_one(&mut self.places, &self.scripts, session);
    }

    /// A session has made a step. Unless a statement of it goes on later, it is answered, and passes its line.
    pub(crate) fn settle(&mut self, session: Session, busy: bool, answered: Answered)
        requires board { IsBoard self.old }
        requires inside { session.0 < length self.old.scripts.items }
        requires room { HasRoom self.old session.0 }
        ensures settles { Settles self.old self.new session.0 busy answered }
        ensures board { IsBoard self.new }
    {
        self.stopped = stop(&answered);
        if !busy {
            pass_one(&mut self.places, &self.scripts, session);
            put(&mut self.answers, session.0 as usize, answered);
        }
    }
}

// No session was answered.
fn no_answers(alloc: Global, sessions: usize) -> Result<Vec<Vec<Answered>>, Memory>
    ensures none { IfOk result (λ answers. lists answers.items ≡ replicate sessions []) }
    ensures long { IfOk result (λ answers. length answers.items ≡ sessions) }
{
    let mut answers = Vec::new(alloc);
    while answers.len() < sessions {
        answers.push(Vec::new(alloc))?;
    }
    Ok(answers)
}

// Counts a line that a session passes, if there is one.
fn pass_one(places: &mut Vec<usize>, scripts: &Vec<SessionLines>, session: Session)
    requires places { length places.old.items ≡ length scripts.now.items }
    requires inside { session.0 < length scripts.now.items }
    ensures passed { get_or places.old.items session.0 0 < length (script_of scripts.now.items session.0)
        → places.new.items ≡ set places.old.items session.0 (get_or places.old.items session.0 0 + 1) }
    ensures long { length places.new.items ≡ length places.old.items }
{
    let place = session.0 as usize;
    let lines = scripts[place].as_slice().len();
    let passed = places[place];
    if passed < lines {
        places[place] = passed + 1;
    }
}

// Puts an answer behind those of a session.
fn put(answers: &mut Vec<Vec<Answered>>, session: usize, answered: Answered)
    requires inside { session < length answers.old.items }
    requires room { (d : _) → vec_len (get_or answers.old.items session d) < vec_capacity (get_or answers.old.items session d) }
    ensures put { lists answers.new.items ≡ set (lists answers.old.items) session
        (get_or (lists answers.old.items) session [] ++ answered ∷ []) }
    ensures long { length answers.new.items ≡ length answers.old.items }
{
    answers[session].push_reserved(answered);
}

// The refusal by which the run stops behind an answer.
fn stop(answered: &Answered) -> Option<Refusal>
    ensures { result ≡ stop_behind answered.now }
{
    match answered {
        Answered::Replied(reply) => stopped_by(flow_of(reply)),
        Answered::LockTimeout { .. } => None,
    }
}

// The refusal by which a run stops that goes on so.
fn stopped_by(flow: Flow) -> Option<Refusal>
    ensures { result ≡ stopped_by_flow flow }
{
    match flow {
        Flow::GoesOn => None,
        Flow::Stops(refusal) => Some(refusal),
    }
}
