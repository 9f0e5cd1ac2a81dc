//! The caller's ends of both rings: jobs go out, receipts come back.

ghost use Rattle.std.specs.Prelude.{◌≡◌, ◌∷◌, [], Some, true, false, length, All, is_some};
ghost use Rattle.std.specs.Option.{ForSome};
ghost use Rattle.rtrb.specs.Ring.{sent, received, IsPair, SameProducer, SameConsumer};
ghost use Rattle.mg_behind.specs.Jobs.{any_failed, EachWhole};
ghost use Rattle.mg_behind.specs.Worker.{IsInStep};
ghost use Rattle.mg_behind.specs.Origin.{Origin};

use crate::job::{Job, Numbered, Receipt, Task};
use crate::patience::Patience;
use crate::started::Started;
use crate::worker::{State, Worker};
use mg_base::{Bytes, Disk};
use rtrb::{Consumer, Producer, PushError};
use std::alloc::Global;
use std::sync::Wait;
use std::thread;

/// The near ends of both rings, the spare page buffers, and, where no thread could be started, the
/// worker itself.
#[derive(Drop)]
pub struct Line<D: Disk, J: Started<D>> {
    pub(crate) size: u32,
    pub(crate) jobs: Producer<Job, Global, Numbered>,
    pub(crate) receipts: Consumer<Receipt, Global, Numbered>,
    /// The number of the last job.
    pub(crate) issued: u64,
    /// The number of the last job of which a receipt was read.
    pub(crate) answered: u64,
    /// Whether a receipt of a failure was read.
    pub(crate) failed: bool,
    pub(crate) spare: Vec<Bytes>,
    pub(crate) here: Option<Worker<D, J>>,
    /// Tells whether a thread was started.
    pub(crate) threaded: Consumer<bool>,
    pub ghost jobs_tie: { (o : Origin D) → J.origin ≡ Some o → SameProducer o.jobs jobs },
    pub ghost receipts_tie: { (o : Origin D) → J.origin ≡ Some o → SameConsumer o.receipts receipts },
    pub ghost threaded_tie: { (o : Origin D) → J.origin ≡ Some o → IsPair o.threaded threaded },
    pub ghost count: { issued ≡ length (sent jobs) },
    pub ghost answers: { answered ≡ length (received receipts) },
    pub ghost failures: { failed ≡ any_failed (received receipts) },
    pub ghost whole: { EachWhole size (sent jobs) },
    pub ghost spares: { All (λ page. length page ≡ size) spare.items },
    pub ghost step: { ForSome here (λ w. IsInStep w.state w.receipts w.given) },
    pub ghost away: { is_some here ≡ false → received threaded ≡ true ∷ [] },
}

// Keeps a page buffer that came back, where there is room for it.
fn keep(spare: &mut Vec<Bytes>, size: u32, buffer: Option<Bytes>)
    requires { All (λ page. length page ≡ size) spare.old.items }
    ensures { All (λ page. length page ≡ size) spare.new.items }
{
    let Some(page) = buffer else {
        return;
    };
    if page.len() == size as usize && spare.len() < spare.capacity() {
        spare.push_reserved(page);
    }
}

impl<D: Disk, J: Started<D>> Line<D, J> {
    ghost use Rattle.std.specs.Prelude.{◌≡◌, ◌⊎◌, ◌+◌, length, true, false, IfSome, IfNone, MatchBool};
    ghost use Rattle.rtrb.specs.Ring.{sent, received};
    ghost use Rattle.mg_behind.specs.Jobs.{IsWhole, next_job};
    ghost use Rattle.mg_behind.specs.declared.job.Task.TheVariants.{Settle};

    // Reads a receipt, where one is there. Tells whether there was one.
    fn hear(&mut self) -> bool
        ensures jobs { self.new.jobs ≡ self.old.jobs }
        ensures same { (self.new.issued ≡ self.old.issued) × (self.new.size ≡ self.old.size) × (self.new.here ≡ self.old.here) }
        ensures failed { self.old.failed ≡ true → self.new.failed ≡ true }
    {
        let Ok(receipt) = self.receipts.pop() else {
            return false;
        };
        let Receipt {
            number,
            failed,
            buffer,
        } = receipt;
        self.answered = number;
        self.failed = self.failed | failed;
        keep(&mut self.spare, self.size, buffer);
        true
    }

    // Goes on by a receipt, where one is there, else waits a little. Where there is no other thread, a
    // job is done here first.
    fn advance<R: Wait>(&mut self, rt: &R, patience: &mut Patience)
        ensures jobs { self.new.jobs ≡ self.old.jobs }
        ensures same { (self.new.issued ≡ self.old.issued) × (self.new.size ≡ self.old.size) }
        ensures failed { self.old.failed ≡ true → self.new.failed ≡ true }
    {
        if let Some(worker) = &mut self.here {
            if worker.state == State::Works {
                worker.serve(rt);
            }
        }
        if !self.hear() {
            patience.wait(rt);
        }
    }

    /// A page buffer. None only where a receipt of a failure was read.
    pub(crate) fn spare_page<R: Wait>(&mut self, rt: &R) -> Option<Bytes>
        ensures page { IfSome result (λ page. length page ≡ self.new.size) }
        ensures none { IfNone result (self.new.failed ≡ true) }
        ensures jobs { self.new.jobs ≡ self.old.jobs }
        ensures same { (self.new.issued ≡ self.old.issued) × (self.new.size ≡ self.old.size) }
        ensures failed { self.old.failed ≡ true → self.new.failed ≡ true }
    {
        let mut patience = Patience::new();
        for _ in rt.forever() {
            if self.failed {
                return None;
            }
            if let Some(page) = self.spare.pop() {
                return Some(page);
            }
            self.advance(rt, &mut patience);
        }
        unreachable!()
    }

    /// Hands out a job. It does not only where a receipt of a failure was read.
    pub(crate) fn hand<R: Wait>(&mut self, rt: &R, task: Task) -> bool
        requires { IsWhole self.old.size task }
        ensures handed { MatchBool result
            ((sent self.new.jobs ≡ next_job (sent self.old.jobs) task) × (self.new.failed ≡ false))
            ((sent self.new.jobs ≡ sent self.old.jobs) × (self.new.failed ≡ true)) }
        ensures size { self.new.size ≡ self.old.size }
        ensures failed { self.old.failed ≡ true → self.new.failed ≡ true }
    {
        let mut patience = Patience::new();
        let number = self.next_number(rt);
        let mut job = Job { number, task };
        for _ in rt.forever() {
            if self.failed {
                return false;
            }
            match self.jobs.push(job) {
                Ok(()) => {
                    self.issued = number;
                    return true;
                }
                Err(PushError::Full(back)) => job = back,
            }
            self.advance(rt, &mut patience);
        }
        unreachable!()
    }

    // The number of the next job. After the last number it does not return.
    fn next_number<R: Wait>(&self, rt: &R) -> u64
        ensures { result ≡ self.now.issued + 1 }
    {
        if let Some(number) = self.issued.checked_add(1) {
            return number;
        }
        for _ in rt.forever() {
            thread::yield_now();
        }
        unreachable!()
    }

    /// Hands out a settle and waits for its receipt. True only where there is a receipt of each job, and none of a failure.
    pub(crate) fn settle<R: Wait>(&mut self, rt: &R) -> bool
        ensures receipt { MatchBool result
            ((sent self.new.jobs ≡ next_job (sent self.old.jobs) Settle)
            × (length (received self.new.receipts) ≡ length (sent self.new.jobs)) × (self.new.failed ≡ false))
            (((sent self.new.jobs ≡ sent self.old.jobs) ⊎ (sent self.new.jobs ≡ next_job (sent self.old.jobs) Settle))
            × (self.new.failed ≡ true)) }
        ensures size { self.new.size ≡ self.old.size }
        ensures failed { self.old.failed ≡ true → self.new.failed ≡ true }
    {
        let mut patience = Patience::new();
        if !self.hand(rt, Task::Settle) {
            return false;
        }
        for _ in rt.forever() {
            if self.failed {
                return false;
            }
            if self.answered == self.issued {
                return true;
            }
            self.advance(rt, &mut patience);
        }
        unreachable!()
    }
}
