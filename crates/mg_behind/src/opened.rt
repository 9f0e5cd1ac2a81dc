//! What a start makes: a mirror of all pages, and the rings.

ghost use Rattle.std.specs.Prelude.{◌≡◌, ◌≤◌, ◌<◌, ℕ, Some, [], length, All, IfOk, IfErr, OnOk};
ghost use Rattle.mg_base.specs.Disk.{Rose};
ghost use Rattle.mg_base.specs.Image.{Image};
ghost use Rattle.rtrb.specs.Ring.{sent, received, known_free, IsPair};
ghost use Rattle.mg_behind.specs.Mirror.{shown};
ghost use Rattle.mg_behind.specs.declared.fault.BehindFault.TheVariants.{TooLarge, DiskRead, Memory as WantsMemory};

use crate::fault::BehindFault;
use crate::job::{Job, Numbered, Receipt};
use crate::mirror::{MOST_PAGES, Mirror, blank_pages};
use mg_base::{Bytes, Disk, Memory, PageNo};
use rtrb::{Consumer, Producer, RingBuffer};
use std::alloc::Global;
use std::sync::Arc;
use std::sync::atomic::AtomicBool;

/// The rings, through which nothing has gone yet, with the page buffers.
#[derive(Drop)]
pub struct Rings {
    pub(crate) size: u32,
    pub(crate) jobs: Producer<Job, Global, Numbered>,
    pub(crate) far_jobs: Consumer<Job, Global, Numbered>,
    pub(crate) receipts: Consumer<Receipt, Global, Numbered>,
    pub(crate) far_receipts: Producer<Receipt, Global, Numbered>,
    /// Through this one both ends come to know whether a thread was started.
    pub(crate) threaded: Producer<bool>,
    pub(crate) far_threaded: Consumer<bool>,
    pub(crate) spare: Vec<Bytes>,
    pub(crate) stop: Arc<AtomicBool, Global>,
    pub(crate) theirs: Arc<AtomicBool, Global>,
    pub ghost jobs_pair: { IsPair jobs far_jobs },
    pub ghost receipts_pair: { IsPair far_receipts receipts },
    pub ghost threaded_pair: { IsPair threaded far_threaded },
    pub ghost fresh_jobs: { (sent jobs ≡ []) × (received far_jobs ≡ []) },
    pub ghost fresh_receipts: { (sent far_receipts ≡ []) × (received receipts ≡ []) },
    pub ghost fresh_threaded: { (sent threaded ≡ []) × (received far_threaded ≡ []) },
    pub ghost free_threaded: { 0 < known_free threaded },
    pub ghost spares: { All (λ page. length page ≡ size) spare.items },
}

impl Rings {
    /// Rings for 64 jobs, with as many page buffers.
    ///
    /// # Errors
    ///
    /// `Memory` only.
    pub(crate) fn new(alloc: Global, size: u32) -> Result<Rings, Memory>
        ensures { IfOk result (λ r. r.size ≡ size) }
    {
        let (jobs, far_jobs) = RingBuffer::<Job>::with_protocol::<Global, Numbered>(alloc, 64)?;
        let (far_receipts, receipts) = RingBuffer::<Receipt>::with_protocol::<Global, Numbered>(
            alloc, 128,
        )?;
        let (threaded, far_threaded) = RingBuffer::<bool>::new(alloc, 1)?;
        let spare = blank_pages(alloc, size, 64)?;
        let stop = Arc::new(alloc, AtomicBool::new(false))?;
        let theirs = Arc::try_clone(&stop)?;
        Ok(Rings {
            size,
            jobs,
            far_jobs,
            receipts,
            far_receipts,
            threaded,
            far_threaded,
            spare,
            stop,
            theirs,
        })
    }
}

/// A device whose pages were read, before the start has a name: `named` gives it one.
pub struct Opened<D: Disk> {
    pub(crate) device: D,
    pub(crate) mirror: Mirror,
    pub(crate) rings: Rings,
    pub ghost whole: { D.meaning.size device ≡ Some mirror.size },
    pub ghost sizes: { rings.size ≡ mirror.size },
    pub ghost read: { (image : Image) → D.meaning.held device ≡ Some image → shown mirror ≡ image },
}

/// Reads every page of a device. All memory that is ever taken for it is taken here.
///
/// # Errors
///
/// The device comes back. `TooLarge` exactly where it has more than 16,384 pages, as far as it answers
/// at all; `DiskRead` only where its faults rose; `Memory` only where it has no more than that.
pub fn start<D: Disk>(alloc: Global, device: D) -> Result<Opened<D>, (D, BehindFault)>
    ensures held { IfOk result (λ o. D.meaning.held o.device ≡ D.meaning.held device) }
    ensures tells { IfOk result (λ o. D.meaning.tells o.device ≡ D.meaning.tells device) }
    ensures asked { IfOk result (λ o. D.meaning.asked o.device ≡ D.meaning.asked device) }
    ensures steady { IfOk result (λ o. D.meaning.faults o.device ≡ D.meaning.faults device) }
    ensures fits { IfOk result (λ o. (n : ℕ) → D.meaning.count o.device ≡ Some n → n ≤ 16384) }
    ensures unchanged { IfErr result (λ e. (D.meaning.held e.0 ≡ D.meaning.held device) × (D.meaning.asked e.0 ≡ D.meaning.asked device)) }
    ensures too_large { IfErr result (λ e. (n : ℕ) → e.1 ≡ TooLarge n → (16384 < n) × (D.meaning.count e.0 ≡ Some n)) }
    ensures disk_read { IfErr result (λ e. e.1 ≡ DiskRead → Rose (D.meaning.faults device) (D.meaning.faults e.0)) }
    ensures memory { IfErr result (λ e. (n : ℕ) → e.1 ≡ WantsMemory → D.meaning.count e.0 ≡ Some n → n ≤ 16384) }
{
    let mut device = device;
    let mirror = match read_all(alloc, &mut device) {
        Ok(mirror) => mirror,
        Err(fault) => return Err((device, fault)),
    };
    match Rings::new(alloc, mirror.size) {
        Ok(rings) => Ok(Opened {
            device,
            mirror,
            rings,
        }),
        Err(Memory) => Err((device, BehindFault::Memory)),
    }
}

// A mirror of all pages of a device.
fn read_all<D: Disk>(alloc: Global, device: &mut D) -> Result<Mirror, BehindFault>
    ensures size { IfOk result (λ m. D.meaning.size device.new ≡ Some m.size) }
    ensures held { D.meaning.held device.new ≡ D.meaning.held device.old }
    ensures tells { D.meaning.tells device.new ≡ D.meaning.tells device.old }
    ensures asked { D.meaning.asked device.new ≡ D.meaning.asked device.old }
    ensures steady { OnOk result (D.meaning.faults device.new ≡ D.meaning.faults device.old) }
    ensures read { IfOk result (λ m. (image : Image) → D.meaning.held device.new ≡ Some image → shown m ≡ image) }
    ensures fits { OnOk result ((n : ℕ) → D.meaning.count device.new ≡ Some n → n ≤ 16384) }
    ensures too_large { IfErr result (λ f. (n : ℕ) → f ≡ TooLarge n → (16384 < n) × (D.meaning.count device.new ≡ Some n)) }
    ensures disk_read { IfErr result (λ f. f ≡ DiskRead → Rose (D.meaning.faults device.old) (D.meaning.faults device.new)) }
    ensures memory { IfErr result (λ f. (n : ℕ) → f ≡ WantsMemory → D.meaning.count device.new ≡ Some n → n ≤ 16384) }
{
    let Ok(size) = device.page_size() else {
        return Err(BehindFault::DiskRead);
    };
    let Ok(pages) = device.pages() else {
        return Err(BehindFault::DiskRead);
    };
    if pages > MOST_PAGES {
        return Err(BehindFault::TooLarge { pages });
    }
    let Ok(mut mirror) = Mirror::new(alloc, size) else {
        return Err(BehindFault::Memory);
    };
    let Ok(buffer) = Bytes::zeroed(alloc, size as usize) else {
        return Err(BehindFault::Memory);
    };
    let mut buffer = buffer.into_vec();
    for page in 0..pages {
        if device.read(PageNo(page), buffer.as_mut_slice()).is_err() {
            return Err(BehindFault::DiskRead);
        }
        mirror.put(page, buffer.as_slice());
    }
    Ok(mirror)
}
