//! The disk: pages of one size, which a crash may cut short between two page writes.

ghost use Rattle.std.specs.Prelude.{◌≡◌, ◌<◌, ◌≤◌, ℕ, length, true, Some, IfOk, OnOk, unwrap_or};
ghost use Rattle.mg_base.specs.Disk.{Meaning, MayLeave, Calm, KeepsReads, ReadsPage, Writes, FailsNoWrite, CountsFailedWrite};
ghost use Rattle.mg_base.specs.Image.{Image, page_at};
ghost use Rattle.mg_base.specs.Geometry.{is_page_size};

use crate::PageNo;

/// The fault of a disk.
#[derive(Clone, Copy, Debug, PartialEq, Eq)]
pub enum DiskFault {
    /// The disk failed: no cause is told.
    Failed,
}

/// Pages of one size, numbered from 0.
///
/// What a disk tells is its `meaning`. A disk may tell nothing of its content (a real file), what
/// reads give alone, or also what a crash may leave. Page writes are whole or absent, they reach the
/// disk in the order in which they were issued, and what was written before a `settle` that answered
/// Ok stays. A disk may count the page writes and the page reads that it is asked for; one that does
/// not tells of fewer.
///
/// # Errors
///
/// Each call answers `Failed` only where the disk's count of faults rose in it. Its count of failed page
/// writes, which counts settling too, rises where `write` or `settle` failed, and in no other call.
pub trait Disk {
    ghost meaning: { Meaning Self };

    /// The size of a page in bytes: one of the five, always the same.
    fn page_size(&mut self) -> Result<u32, DiskFault>
        ensures size { IfOk result (λ n. (meaning.size self.new ≡ Some n) × (is_page_size n ≡ true)) }
        ensures calm { Calm meaning self.old self.new result }
        ensures unread { KeepsReads meaning self.old self.new }
        ensures no_failed_write { FailsNoWrite meaning self.old self.new };

    /// The number of pages.
    fn pages(&mut self) -> Result<u32, DiskFault>
        ensures count { IfOk result (λ n. meaning.count self.new ≡ Some n) }
        ensures calm { Calm meaning self.old self.new result }
        ensures unread { KeepsReads meaning self.old self.new }
        ensures no_failed_write { FailsNoWrite meaning self.old self.new };

    /// Reads a page. `into` is one page long, and the page is below the number of pages, which the
    /// caller has asked for.
    fn read(&mut self, page: PageNo, into: &mut [u8]) -> Result<(), DiskFault>
        requires whole { meaning.size self.old ≡ Some (length into.old) }
        requires below { page.0 < unwrap_or (meaning.count self.old) 0 }
        ensures page { OnOk result ((image : Image) → meaning.held self.old ≡ Some image
            → into.new ≡ page_at (length into.old) image page.0) }
        ensures calm { Calm meaning self.old self.new result }
        ensures reads { ReadsPage meaning self.old self.new page.0 }
        ensures no_failed_write { FailsNoWrite meaning self.old self.new };

    /// Writes a page. `bytes` is one page long. A page past the end lengthens the disk up to that
    /// page, with pages of zeros between.
    fn write(&mut self, page: PageNo, bytes: &[u8]) -> Result<(), DiskFault>
        requires whole { meaning.size self.old ≡ Some (length bytes.now) }
        ensures writes { Writes meaning self.old self.new page.0 bytes.now result }
        ensures failed_writes { CountsFailedWrite meaning self.old self.new result };

    /// Makes what was written stay: after it a crash leaves what the disk holds, and nothing else.
    fn settle(&mut self) -> Result<(), DiskFault>
        ensures durable { OnOk result (meaning.tells self.old ≡ true → (c : Image)
            → MayLeave meaning self.new c → meaning.held self.new ≡ Some c) }
        ensures calm { Calm meaning self.old self.new result }
        ensures unread { KeepsReads meaning self.old self.new }
        ensures failed_writes { CountsFailedWrite meaning self.old self.new result };

    /// A disk that tells what a crash may leave tells what it holds, and a crash may leave that.
    ghost holds: { (disk : Self) → meaning.tells disk ≡ true
        → (image : Image) × (meaning.held disk ≡ Some image) × MayLeave meaning disk image };

    /// What a crash now may leave is among what a crash since an earlier moment might have left.
    ghost counts_now: { (disk : Self) (t : ℕ) (c : Image) → meaning.tells disk ≡ true
        → t ≤ meaning.moment disk → MayLeave meaning disk c → meaning.left disk t c };

    /// Where content and number of pages are both told, they agree.
    ghost counted: { (disk : Self) (image : Image) (n : ℕ) → meaning.held disk ≡ Some image
        → meaning.count disk ≡ Some n → length image ≡ n };
}
