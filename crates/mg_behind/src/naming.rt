//! The thread is started, once the start has a name.

ghost use Rattle.std.specs.Prelude.{◌≡◌, ◌<◌, ◌∷◌, Some, [], true, false, is_some};
ghost use Rattle.rtrb.specs.Ring.{sent, received, known_free, IsPair, SameProducer, SameConsumer};
ghost use Rattle.std.specs.Option.{ForSome};
ghost use denote.Param.Send.{IsSend};
ghost use Rattle.mg_behind.specs.Behind.{jobs_of, receipts_of};
ghost use Rattle.mg_behind.specs.Origins.{origin_of};
ghost use Rattle.mg_behind.specs.Worker.{IsInStep};

use crate::behind::Behind;
use crate::line::Line;
use crate::opened::{Opened, Rings};
use crate::started::Started;
use crate::worker::{State, Worker};
use crate::writer::Writer;
use mg_base::Disk;
use rtrb::{Consumer, Producer};
use std::alloc::Global;
use std::marker::PhantomData;
use std::sync::atomic::{AtomicBool, Ordering};
use std::sync::{Arc, Wait};
use std::thread;
use std::thread::{JoinHandle, Threads};

impl<D: Disk + Send + Drop + 'static> Opened<D> {
    /// The disk and its writer, under the name `J` of this start. Where no thread can be made the disk
    /// has the worker itself, and its calls do the jobs, with the same promise.
    pub fn named<J: Started<D> + Send + 'static, R: Threads + Wait + Copy + Send + 'static>(
        self,
        rt: R,
    ) -> (Behind<D, R, J>, Writer<D, J>)
        requires { J.origin ≡ Some (origin_of self) }
        ensures jobs { jobs_of result.0 ≡ [] }
        ensures receipts { receipts_of result.0 ≡ [] }
        ensures mirror { result.0.mirror ≡ self.mirror }
        ensures refused { (result.0.refused ≡ 0) × (result.0.past ≡ 0) }
    {
        let Opened {
            device,
            mirror,
            rings,
        } = self;
        let Rings {
            size,
            jobs,
            far_jobs,
            receipts,
            far_receipts,
            mut threaded,
            mut far_threaded,
            spare,
            stop,
            theirs,
        } = rings;
        let worker: Worker<D, J> = Worker {
            device,
            size,
            jobs: far_jobs,
            receipts: far_receipts,
            given: 0,
            state: State::Works,
            of: PhantomData,
        };
        let (handle, here) = set_going(rt, worker, theirs, &stop);
        tell(handle.is_some(), &mut threaded, &mut far_threaded);
        let line: Line<D, J> = Line {
            size,
            jobs,
            receipts,
            issued: 0,
            answered: 0,
            failed: false,
            spare,
            here,
            threaded: far_threaded,
        };
        (
            Behind {
                rt,
                line,
                mirror,
                refused: 0,
                past: 0,
            },
            Writer {
                handle,
                stop,
                threaded,
            },
        )
    }
}

// Starts the thread, or gives the worker back where none can be made.
fn set_going<
    D: Disk + Send + Drop + 'static,
    J: Started<D> + Send + 'static,
    R: Threads + Wait + Copy + Send + 'static,
>(
    rt: R,
    worker: Worker<D, J>,
    theirs: Arc<AtomicBool, Global>,
    stop: &Arc<AtomicBool, Global>,
) -> (Option<JoinHandle<Worker<D, J>>>, Option<Worker<D, J>>)
    requires { IsInStep worker.state worker.receipts worker.given }
    ensures step { ForSome result.1 (λ w. IsInStep w.state w.receipts w.given) }
    ensures one { is_some result.1 ≡ false → is_some result.0 ≡ true }
{
    let other = rt;
    let started = thread::spawn(
        &rt,
        move || -> Worker<D, J>
            requires { IsSend D.row × IsSend J.row × IsSend R.row × IsInStep worker.state worker.receipts worker.given }
            ensures { IsInStep result.state result.receipts result.given }
        { worker.run(&other, &theirs) },
    );
    match started {
        Ok(handle) => (Some(handle), None),
        Err(refused) => {
            stop.store(true, Ordering::SeqCst);
            (None, Some((refused.value)()))
        }
    }
}

// Both ends come to know whether a thread was started, before any job. So in the end, when both are in
// one place again, it is known that one of them has the worker.
fn tell(threaded: bool, near: &mut Producer<bool>, far: &mut Consumer<bool>)
    requires pair { IsPair near.old far.old }
    requires fresh { (sent near.old ≡ []) × (received far.old ≡ []) }
    requires free { 0 < known_free near.old }
    ensures near { (sent near.new ≡ threaded ∷ []) × SameProducer near.old near.new }
    ensures far { (received far.new ≡ threaded ∷ []) × SameConsumer far.old far.new }
{
    near.push_reserved(threaded);
    far.slots_beside(near);
    far.pop_known();
}
