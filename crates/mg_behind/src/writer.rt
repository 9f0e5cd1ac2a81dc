//! How it ends.

ghost use Rattle.std.specs.Prelude.{◌≡◌, ◌∷◌, [], Some, None, true, false, is_some};
ghost use Rattle.mg_base.specs.Image.{Image};
ghost use Rattle.mg_behind.specs.Origin.{Origin};
ghost use Rattle.rtrb.specs.Ring.{sent, SameProducer};

use crate::behind::Behind;
use crate::line::Line;
use crate::started::Started;
use crate::worker::Worker;
use mg_base::Disk;
use rtrb::Producer;
use std::alloc::Global;
use std::sync::atomic::{AtomicBool, Ordering};
use std::sync::{Arc, Wait};
use std::thread::{JoinHandle, Threads};

/// The thread that writes. It can't be let go but by `finish`, which joins it.
pub struct Writer<D: Disk, J: Started<D>> {
    pub(crate) handle: Option<JoinHandle<Worker<D, J>>>,
    pub(crate) stop: Arc<AtomicBool, Global>,
    /// Tells whether a thread was started.
    pub(crate) threaded: Producer<bool>,
    pub ghost named: { J.origin ≡ None → ⊥ },
    pub ghost read: { (o : Origin D) → J.origin ≡ Some o → (image : Image) → D.meaning.held o.device ≡ Some image → o.image ≡ image },
    pub ghost threaded_tie: { (o : Origin D) → J.origin ≡ Some o → SameProducer o.threaded threaded },
    pub ghost away: { is_some handle ≡ false → sent threaded ≡ false ∷ [] },
}

impl<D: Disk + Drop, J: Started<D>> Writer<D, J> {
    ghost use Rattle.std.specs.Prelude.{◌≡◌, ◌≤◌, Some, length};
    ghost use Rattle.mg_behind.specs.Behind.{jobs_of, receipts_of, pages_of};
    ghost use Rattle.mg_behind.specs.Origin.{Origin};
    ghost use Rattle.mg_behind.specs.Ends.{Ends};

    /// Waits for the writer, does what it left in the ring, and gives the device back, with the number of
    /// the jobs that it was given. Both came from one start, since both have its name `J`.
    pub fn finish<R: Threads + Wait + Drop>(self, behind: Behind<D, R, J>) -> (D, u64)
        ensures some { result.1 ≤ length (jobs_of behind) }
        ensures ends { (o : Origin D) → J.origin ≡ Some o
            → Ends D.meaning o.device result.0 (jobs_of behind) (receipts_of behind) result.1 (pages_of behind) behind.refused }
    {
        let Writer {
            handle,
            stop,
            mut threaded,
        } = self;
        let Behind { rt, line, .. } = behind;
        let Line {
            mut jobs,
            mut receipts,
            here,
            threaded: mut told,
            ..
        } = line;
        stop.store(true, Ordering::SeqCst);
        told.slots_beside(&mut threaded);
        let mut worker = come_back(&rt, handle, here);
        receipts.slots_beside(&mut worker.receipts);
        worker.drain(&rt, &mut jobs);
        let Worker { device, given, .. } = worker;
        (device, given)
    }
}

// The worker, from its thread or from the line: one of the two has it.
fn come_back<D: Disk + Drop, J: Started<D>, R: Threads>(
    rt: &R,
    handle: Option<JoinHandle<Worker<D, J>>>,
    here: Option<Worker<D, J>>,
) -> Worker<D, J>
    requires { is_some handle ≡ false → is_some here ≡ false → ⊥ }
{
    if let Some(handle) = handle {
        return handle.join(rt);
    }
    if let Some(worker) = here {
        return worker;
    }
    unreachable!()
}
