//! The one that gives the device its jobs: in a thread of its own, or in the caller's where none could be started.

ghost use Rattle.std.specs.Prelude.{◌≡◌, ◌≤◌, Some, true, false, length};
ghost use Rattle.rtrb.specs.Ring.{sent, received, IsPair};
ghost use Rattle.mg_behind.specs.Jobs.{any_failed, Did};
ghost use Rattle.mg_behind.specs.Origin.{Origin};
ghost use Rattle.mg_behind.specs.declared.worker.State.TheVariants.{Works, Failed};

use crate::job::{Job, Numbered, Receipt, Task};
use crate::patience::Patience;
use crate::started::Started;
use mg_base::{Disk, PageNo};
use rtrb::{Consumer, Producer, PushError};
use std::alloc::Global;
use std::marker::PhantomData;
use std::sync::atomic::{AtomicBool, Ordering};
use std::sync::{Arc, Wait};
use std::thread;

/// Whether the device may be given a further job.
#[derive(Clone, Copy, PartialEq, Eq)]
pub(crate) enum State {
    Works,
    /// The device failed at the last job.
    Failed,
    /// The last job was no whole page. None such is ever issued.
    Odd,
}

/// The device, with the far ends of both rings.
#[derive(Drop)]
pub struct Worker<D: Disk, J: Started<D>> {
    pub(crate) device: D,
    pub(crate) size: u32,
    pub(crate) jobs: Consumer<Job, Global, Numbered>,
    pub(crate) receipts: Producer<Receipt, Global, Numbered>,
    /// The number of the last job that the device was given.
    pub(crate) given: u64,
    pub(crate) state: State,
    pub(crate) of: PhantomData<J>,
    pub ghost whole: { D.meaning.size device ≡ Some size },
    pub ghost jobs_tie: { (o : Origin D) → J.origin ≡ Some o → IsPair o.jobs jobs },
    pub ghost receipts_tie: { (o : Origin D) → J.origin ≡ Some o → IsPair receipts o.receipts },
    pub ghost count: { given ≡ length (received jobs) },
    pub ghost did: { (o : Origin D) → J.origin ≡ Some o → Did D.meaning o.device device size (received jobs) state },
    pub ghost fewer: { length (sent receipts) ≤ given },
    pub ghost honest: { state ≡ Works → any_failed (sent receipts) ≡ false },
    pub ghost told: { state ≡ Failed → length (sent receipts) ≡ given → any_failed (sent receipts) ≡ true },
}

impl<D: Disk, J: Started<D>> Worker<D, J> {
    ghost use Rattle.std.specs.Prelude.{◌≡◌, ◌+◌, ◌≤◌, ◌∷◌, [], ◌++◌, length, true, false, IfSome, IfNone};
    ghost use Rattle.rtrb.specs.Ring.{sent, received, IsPair};
    ghost use mathlib.Core.List.{IsPrefix};
    ghost use Rattle.mg_behind.specs.Worker.{Takes, Answers, StopsOrStays, IsInStep};
    ghost use Rattle.mg_behind.specs.declared.worker.State.TheVariants.{Works, Failed};

    /// Gives the device the next job. None where the ring has none.
    pub(crate) fn next(&mut self) -> Option<Receipt>
        requires { self.old.state ≡ Works }
        ensures receipts { self.new.receipts ≡ self.old.receipts }
        ensures size { self.new.size ≡ self.old.size }
        ensures taken { Takes self.old.jobs self.new.jobs }
        ensures done { IfSome result (λ r. (r.number ≡ self.old.given + 1) × (self.new.given ≡ r.number) × Answers r.failed self.new.state) }
        ensures none { IfNone result (StopsOrStays self.old.jobs self.new.jobs self.new.state) }
    {
        let Ok(job) = self.jobs.pop() else {
            return None;
        };
        let Job { number, task } = job;
        self.given = number;
        match task {
            Task::Write { page, bytes } => {
                if bytes.len() != self.size as usize {
                    self.state = State::Odd;
                    return None;
                }
                let failed = self.device.write(PageNo(page), bytes.as_slice()).is_err();
                if failed {
                    self.state = State::Failed;
                }
                Some(Receipt {
                    number,
                    failed,
                    buffer: Some(bytes),
                })
            }
            Task::Settle => {
                let failed = self.device.settle().is_err();
                if failed {
                    self.state = State::Failed;
                }
                Some(Receipt {
                    number,
                    failed,
                    buffer: None,
                })
            }
        }
    }

    // Hands the receipt of the last job back.
    #[tactic(auto, using(crate::proofs::Does::none_failed_more))]
    fn hand_back<R: Wait>(&mut self, rt: &R, receipt: Receipt)
        requires number { receipt.number ≡ length (sent self.old.receipts) + 1 }
        requires given { receipt.number ≤ self.old.given }
        requires honest { self.old.state ≡ Works → receipt.failed ≡ false }
        requires told { self.old.state ≡ Failed → receipt.failed ≡ true }
        ensures sent { sent self.new.receipts ≡ sent self.old.receipts ++ receipt ∷ [] }
        ensures jobs { self.new.jobs ≡ self.old.jobs }
        ensures same { (self.new.given ≡ self.old.given) × (self.new.state ≡ self.old.state) × (self.new.size ≡ self.old.size) }
    {
        let mut receipt = receipt;
        for _ in rt.forever() {
            match self.receipts.push(receipt) {
                Ok(()) => return,
                Err(PushError::Full(back)) => receipt = back,
            }
            thread::yield_now();
        }
        unreachable!()
    }

    /// Gives the device the next job and hands its receipt back. Tells whether there was one.
    pub(crate) fn serve<R: Wait>(&mut self, rt: &R) -> bool
        requires works { self.old.state ≡ Works }
        requires step { IsInStep self.old.state self.old.receipts self.old.given }
        ensures step { IsInStep self.new.state self.new.receipts self.new.given }
        ensures size { self.new.size ≡ self.old.size }
    {
        match self.next() {
            Some(receipt) => {
                self.hand_back(rt, receipt);
                true
            }
            None => false,
        }
    }

    /// Gives the device jobs as they come, until it fails, or none is there and none is to come. The
    /// flag is a hint: the jobs that are left where it was seen too early are done by `drain`.
    pub(crate) fn run<R: Wait>(self, rt: &R, stop: &Arc<AtomicBool, Global>) -> Worker<D, J>
        requires step { IsInStep self.state self.receipts self.given }
        ensures step { IsInStep result.state result.receipts result.given }
    {
        let mut worker = self;
        let mut patience = Patience::new();
        for _ in rt.forever() {
            if worker.state != State::Works {
                return worker;
            }
            let last = stop.load(Ordering::SeqCst);
            if worker.serve(rt) {
                patience = Patience::new();
            } else {
                if last {
                    return worker;
                }
                patience.wait(rt);
            }
        }
        unreachable!()
    }

    /// Does the jobs that are left, once the other end of the ring has come to the same thread.
    pub(crate) fn drain<R: Wait>(&mut self, rt: &R, jobs: &mut Producer<Job, Global, Numbered>)
        requires { IsPair jobs.old self.old.jobs }
        ensures sent { sent jobs.new ≡ sent jobs.old }
        ensures front { IsPrefix (received self.new.jobs) (sent jobs.old) }
        ensures all { self.new.state ≡ Works → received self.new.jobs ≡ sent jobs.old }
        ensures receipts { self.new.receipts ≡ self.old.receipts }
        ensures size { self.new.size ≡ self.old.size }
    {
        for _ in rt.forever() {
            let left = self.jobs.slots_beside(jobs);
            if left == 0 || self.state != State::Works {
                return;
            }
            self.next();
        }
        unreachable!()
    }
}
