//! A stage as a value that threads share.

ghost use Rattle.std.specs.Prelude.{◌≡◌};
ghost use Rattle.mg_floor.specs.Coming.{IsStage};

use crate::stage::Stage;
use mg_base::TxNo;
use mg_courses::Tends;
use mg_script::Session;
use mg_turn::{End, Served};
use std::marker::Model;

/// What a thread asks for.
#[derive(Clone, Copy, Debug, PartialEq, Eq)]
pub enum Call {
    /// The next step of a session, which has looked so often in vain for the end of what its statement waits for.
    Next { session: Session, polls: u32 },
    /// A changed page is written.
    Flush,
    /// A record is collected. It does nothing: what a statement visits is collected behind the step that visits it.
    Collect,
    /// A step of a sweep. It does nothing so far.
    Sweep,
}

/// What it is told.
#[derive(Clone, Copy, Debug, PartialEq, Eq)]
pub enum Told {
    /// A step was made: a line is done, or its statement goes on by a later step.
    GoesOn,
    /// Nothing was done: the statement waits for this live transaction.
    Waits(TxNo),
    /// A line is done by which the transaction of the session has come to its end.
    Over { t: TxNo, end: End },
    /// The session is at the end of its script.
    Finished,
    /// The run has stopped.
    Stopped,
    /// Whether there was something to tend.
    Tended(bool),
}

/// A stage that threads share.
#[derive(Drop)]
pub struct Floor<R: Tends>
where
    R::Run: Drop,
{
    stage: Stage<R, R::Run>,
}

impl<R: Tends> Model for Floor<R>
where
    R::Run: Drop,
{
    ghost use Rattle.mg_floor.specs.Coming.{IsStage};
    ghost use Rattle.mg_floor.specs.declared.stage.Stage.{Stage};

    ghost Value = { Stage R R.Run };

    ghost view = { λ f. f.stage };

    ghost invariant = { λ f. IsStage R.meaning R.runs f.stage };
}

impl<R: Tends> Floor<R>
where
    R::Run: Drop,
{
    /// The floor of a stage.
    pub fn new(stage: Stage<R, R::Run>) -> Floor<R>
        requires { IsStage R.meaning R.runs stage }
        ensures { result ≡ stage }
    {
        Floor { stage }
    }

    /// Its stage.
    pub fn into_stage(self) -> Stage<R, R::Run>
        ensures same { result ≡ self }
        ensures ready { IsStage R.meaning R.runs result }
    {
        let Floor { stage } = self;
        stage
    }
}

impl<R: Tends> Served for Floor<R>
where
    R::Run: Drop,
{
    ghost use Rattle.mg_floor.specs.Coming.{Comes};
    ghost use Rattle.mg_floor.specs.Ends.{tells_end};

    type Call = Call;

    type Reply = Told;

    ghost answers = { λ old call reply new. Comes R.meaning R.runs old new };

    ghost ends = { λ call reply t end. tells_end reply t end };

    fn serve(&mut self, call: Call) -> Told {
        match call {
            Call::Next { session, polls } => self.stage.next(session, polls),
            Call::Flush => Told::Tended(self.stage.flush()),
            Call::Collect | Call::Sweep => Told::Tended(false),
        }
    }
}
