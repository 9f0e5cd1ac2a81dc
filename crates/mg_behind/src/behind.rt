//! The disk that answers at once.

ghost use Rattle.std.specs.Prelude.{◌≡◌, ◌<◌, Some, true};
ghost use Rattle.mg_behind.specs.Jobs.{after};
ghost use Rattle.mg_behind.specs.Mirror.{shown};
ghost use Rattle.mg_behind.specs.Origin.{Origin, image_from};
ghost use Rattle.rtrb.specs.Ring.{sent};

use crate::job::Task;
use crate::line::Line;
use crate::mirror::{MOST_PAGES, Mirror};
use crate::started::Started;
use mg_base::{Disk, DiskFault, PageNo};
use std::sync::Wait;

/// A disk over another: it reads from a mirror of all pages, and hands page writes and settles to the
/// worker. It has room for 16,384 pages. Its calls may wait, and none takes memory.
///
/// It tells its pages, and nothing of crashes. Its faults are the calls that it refused: page writes and
/// settles, since its reads never fail.
#[derive(Drop)]
pub struct Behind<D: Disk, R: Wait, J: Started<D>> {
    pub(crate) rt: R,
    pub(crate) line: Line<D, J>,
    pub(crate) mirror: Mirror,
    /// How many calls it refused behind a receipt of a failure.
    pub(crate) refused: u64,
    /// How many writes it refused since their page lies past the room.
    pub(crate) past: u64,
    pub ghost sizes: { line.size ≡ mirror.size },
    pub ghost measured: { (o : Origin D) → J.origin ≡ Some o → D.meaning.size o.device ≡ Some mirror.size },
    pub ghost mirrored: { shown mirror ≡ after (image_from J.origin) (sent line.jobs) },
    pub ghost honest: { 0 < refused → line.failed ≡ true },
}

impl<D: Disk, R: Wait, J: Started<D>> Behind<D, R, J> {
    ghost use Rattle.std.specs.Prelude.{◌≡◌, ◌≤◌, ◌+◌, IsErr, true};
    ghost use Rattle.mg_base.specs.Disk.{Counts, Rose};

    /// How many calls it refused behind a receipt of a failure: each write of a page that there is room
    /// for, and each settle, that answered `Failed`.
    pub fn refused(&self) -> u64
        ensures { result ≡ self.now.refused }
    {
        self.refused
    }

    /// How many writes it refused since their page lies past the room.
    pub fn past(&self) -> u64
        ensures { result ≡ self.now.past }
    {
        self.past
    }

    // Refuses a call behind a receipt of a failure.
    #[tactic(auto, using(crate::proofs::Writing::rose_beside))]
    fn refuse(&mut self) -> Result<(), DiskFault>
        requires { self.old.line.failed ≡ true }
        ensures line { self.new.line ≡ self.old.line }
        ensures mirror { self.new.mirror ≡ self.old.mirror }
        ensures past { self.new.past ≡ self.old.past }
        ensures err { IsErr result }
        ensures refused { Counts self.old.refused self.new.refused }
        ensures rose { Rose (self.old.refused + self.old.past) (self.new.refused + self.new.past) }
        ensures never_falls { self.old.refused ≤ self.new.refused }
    {
        self.refused = self.refused.saturating_add(1);
        Err(DiskFault::Failed)
    }

    // Refuses a write of a page that there is no room for.
    #[tactic(auto, using(crate::proofs::Writing::rose_past))]
    fn refuse_past(&mut self) -> Result<(), DiskFault>
        ensures line { self.new.line ≡ self.old.line }
        ensures mirror { self.new.mirror ≡ self.old.mirror }
        ensures refused { self.new.refused ≡ self.old.refused }
        ensures err { IsErr result }
        ensures past { Counts self.old.past self.new.past }
        ensures rose { Rose (self.old.refused + self.old.past) (self.new.refused + self.new.past) }
        ensures never_falls { self.old.past ≤ self.new.past }
    {
        self.past = self.past.saturating_add(1);
        Err(DiskFault::Failed)
    }
}

impl<D: Disk, R: Wait, J: Started<D>> Disk for Behind<D, R, J> {
    ghost use Rattle.std.specs.Prelude.{◌≡◌, ◌<◌, ◌≤◌, true, Some, length, unwrap_or, IfOk, OnOk, IsErr, IsOk};
    ghost use Rattle.mg_base.specs.Disk.{Calm, KeepsReads, ReadsPage, Writes, MayLeave, FailsNoWrite, CountsFailedWrite};
    ghost use Rattle.mg_base.specs.Geometry.{is_page_size};
    ghost use Rattle.mg_base.specs.Image.{Image, page_at};
    ghost use Rattle.mg_behind.specs.Behind.{behind_meaning, behind_holds, behind_counts_now, behind_counted};
    ghost use Rattle.mg_behind.specs.Calls.{IssuesWrite, RefusesWrite, RefusesPage, Settles, RefusesSettle};

    ghost meaning = { behind_meaning };

    ghost holds = { behind_holds };

    ghost counts_now = { behind_counts_now };

    ghost counted = { behind_counted };

    fn page_size(&mut self) -> Result<u32, DiskFault>
        ensures size { IfOk result (λ n. (behind_meaning.size self.new ≡ Some n) × (is_page_size n ≡ true)) }
        ensures calm { Calm behind_meaning self.old self.new result }
        ensures unread { KeepsReads behind_meaning self.old self.new }
        ensures no_failed_write { FailsNoWrite behind_meaning self.old self.new }
        ensures ok { IsOk result }
        ensures same { self.new ≡ self.old }
    {
        Ok(self.mirror.size)
    }

    fn pages(&mut self) -> Result<u32, DiskFault>
        ensures count { IfOk result (λ n. behind_meaning.count self.new ≡ Some n) }
        ensures calm { Calm behind_meaning self.old self.new result }
        ensures unread { KeepsReads behind_meaning self.old self.new }
        ensures no_failed_write { FailsNoWrite behind_meaning self.old self.new }
        ensures ok { IsOk result }
        ensures same { self.new ≡ self.old }
    {
        Ok(self.mirror.used)
    }

    fn read(&mut self, page: PageNo, into: &mut [u8]) -> Result<(), DiskFault>
        requires whole { behind_meaning.size self.old ≡ Some (length into.old) }
        requires below { page.0 < unwrap_or (behind_meaning.count self.old) 0 }
        ensures page { OnOk result ((image : Image) → behind_meaning.held self.old ≡ Some image
            → into.new ≡ page_at (length into.old) image page.0) }
        ensures calm { Calm behind_meaning self.old self.new result }
        ensures reads { ReadsPage behind_meaning self.old self.new page.0 }
        ensures no_failed_write { FailsNoWrite behind_meaning self.old self.new }
        ensures ok { IsOk result }
        ensures same { self.new ≡ self.old }
    {
        self.mirror.read(page.0, into);
        Ok(())
    }

    /// It fails exactly where a receipt of a failure was read, in this call or earlier, or the page lies
    /// past the room. In neither case a job is issued.
    fn write(&mut self, page: PageNo, bytes: &[u8]) -> Result<(), DiskFault>
        requires whole { behind_meaning.size self.old ≡ Some (length bytes.now) }
        ensures writes { Writes behind_meaning self.old self.new page.0 bytes.now result }
        ensures failed_writes { CountsFailedWrite behind_meaning self.old self.new result }
        ensures issued { OnOk result (IssuesWrite self.old self.new page.0 bytes.now) }
        ensures refused { page.0 < 16384 → IsErr result → RefusesWrite self.old self.new }
        ensures past { 16384 ≤ page.0 → IsErr result × RefusesPage self.old self.new }
    {
        if page.0 >= MOST_PAGES {
            return self.refuse_past();
        }
        let Some(mut buffer) = self.line.spare_page(&self.rt) else {
            return self.refuse();
        };
        buffer.overwrite(bytes);
        let task = Task::Write {
            page: page.0,
            bytes: buffer,
        };
        if !self.line.hand(&self.rt, task) {
            return self.refuse();
        }
        self.mirror.put(page.0, bytes);
        Ok(())
    }

    /// At Ok there is a receipt of each job, and none of a failure. It fails exactly where a receipt of a
    /// failure was read, in this call or earlier.
    fn settle(&mut self) -> Result<(), DiskFault>
        ensures durable { OnOk result (behind_meaning.tells self.old ≡ true → (c : Image)
            → MayLeave behind_meaning self.new c → behind_meaning.held self.new ≡ Some c) }
        ensures calm { Calm behind_meaning self.old self.new result }
        ensures unread { KeepsReads behind_meaning self.old self.new }
        ensures failed_writes { CountsFailedWrite behind_meaning self.old self.new result }
        ensures settled { OnOk result (Settles self.old self.new) }
        ensures refused { IsErr result → RefusesSettle self.old self.new }
    {
        if !self.line.settle(&self.rt) {
            return self.refuse();
        }
        Ok(())
    }
}
