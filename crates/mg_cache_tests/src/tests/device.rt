//! What no clause shows: that calls succeed with ample memory, and what the real file does.

ghost use Rattle.std.specs.Prelude.{◌≡◌, true};
ghost use Rattle.mg_base.specs.Geometry.{is_page_size};

use super::disks::read_page;
use mg_base::{Disk, PageNo};
use mg_device::{Device, FileDisk, ForcedWrites, MemDevice};
use std::alloc::{Allocator, Global};
use std::cell::Cell;
use std::fs::{Files, Metadata, OpenOptions};
use std::os::unix::fs::symlink;
use std::path::PathBuf;
use std::process::Abort;
use std::test::Fail;
use std::{env, fs, io, process};

/// A call of a disk whose pages have 1024 bytes, and what it does.
#[derive(Clone, Copy)]
enum Call {
    /// A page of equal bytes is written, or refused.
    Put(u32, u8, bool),
    /// A page has equal bytes of this value, or can't be read.
    Get(u32, Option<u8>),
    /// The disk settles, or refuses to.
    Settle(bool),
    /// There are so many pages, or nobody can tell.
    Pages(Option<u32>),
    /// A page has so many bytes, or nobody can tell.
    Size(Option<u32>),
}

// Writes a page of 1024 equal bytes, after asking for the page size, and tells whether it did.
fn put<D: Disk>(disk: &mut D, page: u32, byte: u8) -> bool {
    match disk.page_size() {
        Ok(1024) => disk.write(PageNo(page), &[byte; 1024]).is_ok(),
        _ => false,
    }
}

// The byte of which a page of 1024 is made, if it can be read and its bytes are equal.
fn get<D: Disk>(disk: &mut D, page: u32) -> Option<u8> {
    let bytes = read_page(disk, page)?;
    let first = bytes[0];
    if bytes == [first; 1024] {
        Some(first)
    } else {
        None
    }
}

fn settles<D: Disk>(disk: &mut D) -> bool {
    disk.settle().is_ok()
}

fn pages<D: Disk>(disk: &mut D) -> Option<u32> {
    disk.pages().ok()
}

fn page_size<D: Disk>(disk: &mut D) -> Option<u32> {
    disk.page_size().ok()
}

// Tells whether a disk does what a call says.
fn does<D: Disk>(disk: &mut D, call: Call) -> bool {
    match call {
        Call::Put(page, byte, done) => put(disk, page, byte) == done,
        Call::Get(page, byte) => get(disk, page) == byte,
        Call::Settle(done) => settles(disk) == done,
        Call::Pages(count) => pages(disk) == count,
        Call::Size(size) => page_size(disk) == size,
    }
}

// Tells whether a disk does what each call says, one after another.
fn does_each<D: Disk>(disk: &mut D, calls: &[Call]) -> bool {
    for call in calls {
        if !does(disk, *call) {
            return false;
        }
    }
    true
}

// There is no room for page 3. From then on everything is refused.
const FORCED: &[Call] = &[
    Call::Put(1, 7, true),
    Call::Settle(true),
    Call::Pages(Some(2)),
    Call::Get(0, Some(0)),
    Call::Get(1, Some(7)),
    Call::Put(3, 7, false),
    Call::Put(1, 8, false),
    Call::Settle(false),
    Call::Get(1, None),
];

// A new disk over the device refuses, too.
const FORCED_AGAIN: &[Call] = &[Call::Pages(Some(2)), Call::Get(1, None)];

// Tells whether a disk over a device with room for three pages keeps its pages and then refuses.
fn refuses_all(device: MemDevice) -> bool {
    let mut disk = ForcedWrites::new(device);
    if !does_each(&mut disk, FORCED) {
        return false;
    }
    let mut again = ForcedWrites::new(disk.into_inner());
    does_each(&mut again, FORCED_AGAIN)
}

#[test]
fn a_forced_disk_keeps_its_pages_and_refuses_all_after_a_failed_write(
    rt: HostRuntime,
) -> Result<(), Fail> {
    assert!(rt; refuses_all(MemDevice::new(rt.alloc(), 1024, 3, 9)?));
    Ok(())
}

// Tells whether the first settle syncs a device on which something is pending.
fn settles_pending<V: Device + Drop>(device: V) -> bool {
    let is_pending = !device.is_synced();
    let mut disk = ForcedWrites::new(device);
    let is_settled = settles(&mut disk);
    is_pending && is_settled && disk.into_inner().is_synced()
}

// Tells whether a device is synced until a page is written, and after the first settle.
fn settles_written(alloc: Global) -> Result<bool, Fail> {
    let mut device = MemDevice::new(alloc, 1024, 3, 9)?;
    let is_synced = device.is_synced();
    let is_written = device.write(PageNo(0), &[7; 1024]).is_ok();
    let is_settled = settles_pending(device);
    Ok(is_synced && is_written && is_settled)
}

#[test]
fn what_is_pending_on_a_device_is_synced_by_the_first_settle(rt: HostRuntime) -> Result<(), Fail> {
    assert!(rt; settles_written(rt.alloc())?);
    Ok(())
}

// A name in the folder for temporary files that no other process uses.
fn temporary(rt: &HostRuntime, name: &str) -> Result<String, Fail> {
    let folder = env::temp_dir(rt)?;
    let folder = folder.as_str();
    let id = process::id(rt.process());
    Ok(format!(in rt.alloc(); "{folder}/mgdb-{id}-{name}")?)
}

// A disk over the file at a path, whose pages have so many bytes where the file does not tell.
fn disk_at(rt: &HostRuntime, path: &String, size: u32) -> Result<FileDisk<HostRuntime>, Fail>
    requires { is_page_size size ≡ true }
{
    Ok(FileDisk::at(rt.clone()?, path.clone()?, size))
}

// Tells whether a new disk over the file at a path does what each call says.
fn does_at(rt: &HostRuntime, path: &String, size: u32, calls: &[Call]) -> Result<bool, Fail>
    requires { is_page_size size ≡ true }
{
    Ok(does_each(&mut disk_at(rt, path, size)?, calls))
}

const FILE: &[Call] = &[
    Call::Pages(Some(0)),
    Call::Put(2, 7, true),
    Call::Settle(true),
    Call::Pages(Some(3)),
    Call::Get(1, Some(0)),
    Call::Get(2, Some(7)),
];

const FILE_AGAIN: &[Call] = &[Call::Size(Some(4096)), Call::Pages(Some(1))];

// A second opening is refused while the first has the lock.
const LOCKED: &[Call] = &[Call::Size(None)];

// Tells whether a second disk over the file at a path is refused while the first has the lock.
fn is_locked(rt: &HostRuntime, path: &String) -> Result<bool, Fail> {
    let mut disk = disk_at(rt, path, 1024)?;
    let is_done = does_each(&mut disk, FILE);
    let is_refused = does_at(rt, path, 1024, LOCKED)?;
    Ok(is_done && is_refused)
}

// Tells whether the file at a path keeps its pages and its lock.
fn is_kept(rt: &HostRuntime, path: &String) -> Result<bool, Fail> {
    Ok(is_locked(rt, path)? && does_at(rt, path, 4096, FILE_AGAIN)?)
}

// What is tried on the file at a path.
#[derive(Clone, Copy)]
enum Tried {
    KeepsPages,
    SyncsFirst,
    IsCut,
    // A file of these bytes is one page of so many bytes.
    HasSize(&'static [u8], u32),
    // The path leads elsewhere after the lock.
    LeadsElsewhere,
    LeadsToNoFile,
}

// Tells whether it comes out so.
fn comes_out(rt: &HostRuntime, path: &String, tried: Tried) -> Result<bool, Fail> {
    match tried {
        Tried::KeepsPages => is_kept(rt, path),
        Tried::SyncsFirst => is_synced_first(rt, path),
        Tried::IsCut => is_cut(rt, path),
        Tried::HasSize(bytes, size) => has_size(rt, path, bytes, size),
        Tried::LeadsElsewhere => is_refused_elsewhere(rt, path),
        Tried::LeadsToNoFile => makes_target(rt, path),
    }
}

// Tells whether it comes out so on a file in the folder for temporary files, which is removed then.
fn comes_out_at(rt: &HostRuntime, name: &str, tried: Tried) -> Result<bool, Fail> {
    let path = temporary(rt, name)?;
    let is_so = comes_out(rt, &path, tried)?;
    fs::remove_file(rt, path.as_str())?;
    Ok(is_so)
}

// Tells whether a disk over a file with one page of bytes 7 syncs it by its first settle.
fn is_synced_first(rt: &HostRuntime, path: &String) -> Result<bool, Fail> {
    fs::write(rt, path.as_str(), [7u8; 1024].as_slice())?;
    let mut disk = disk_at(rt, path, 1024)?;
    let is_page = pages(&mut disk) == Some(1);
    let is_synced = settles_pending(disk.into_inner());
    Ok(is_page && is_synced)
}

// The file was cut behind its first page.
const CUT: &[Call] = &[
    Call::Get(0, Some(0)),
    Call::Get(1, None),
    Call::Put(0, 8, false),
    Call::Pages(Some(3)),
    Call::Settle(false),
    Call::Get(0, None),
];

// At the next opening a partial last page is there, and reads as zero past the end.
const CUT_AGAIN: &[Call] = &[
    Call::Pages(Some(2)),
    Call::Get(1, Some(0)),
    Call::Put(1, 9, true),
];

// Cuts the file at a path to so many bytes.
fn cut(rt: &HostRuntime, path: &str, len: u64) -> Result<(), Fail> {
    let file = OpenOptions::new().write(true).open(rt, path)?;
    file.set_len(len)?;
    Ok(())
}

// Tells whether a disk over the file at a path is refused, which has three pages when the file is
// cut.
fn is_refused_when_cut(rt: &HostRuntime, path: &String) -> Result<bool, Fail> {
    let mut disk = disk_at(rt, path, 1024)?;
    if !put(&mut disk, 2, 7) {
        return Ok(false);
    }
    cut(rt, path.as_str(), 1500)?;
    Ok(does_each(&mut disk, CUT))
}

// How many bytes the file at a path has.
fn length_of(rt: &HostRuntime, path: &String) -> Result<u64, Fail> {
    Ok(fs::metadata(rt, path.as_str())?.len())
}

// Tells whether the file at a path is neither read past its end nor written once it is cut.
fn is_cut(rt: &HostRuntime, path: &String) -> Result<bool, Fail> {
    let is_refused = is_refused_when_cut(rt, path)?;
    let is_filled = does_at(rt, path, 1024, CUT_AGAIN)?;
    Ok(is_refused && is_filled && length_of(rt, path)? == 2048)
}

// Tells whether a disk over a file of these bytes has one page of this size.
fn has_size(rt: &HostRuntime, path: &String, bytes: &[u8], size: u32) -> Result<bool, Fail> {
    fs::write(rt, path.as_str(), bytes)?;
    does_at(
        rt,
        path,
        1024,
        &[Call::Size(Some(size)), Call::Pages(Some(1))],
    )
}

const REFUSED: &[Call] = &[Call::Size(None), Call::Pages(None), Call::Settle(true)];

// Tells whether a disk over what is at a path is refused.
fn is_refused(rt: &HostRuntime, path: &String) -> Result<bool, Fail> {
    does_at(rt, path, 4096, REFUSED)
}

// A path at which there is no file.
#[derive(Clone, Copy)]
enum NoFile {
    Folder,
    InNoFolder,
    NoName,
    Device,
}

// The path of what is no file.
fn path_of(rt: &HostRuntime, what: NoFile) -> Result<String, Fail> {
    Ok(match what {
        NoFile::Folder => env::temp_dir(rt)?.into_string(),
        NoFile::InNoFolder => temporary(rt, "missing/db")?,
        NoFile::NoName => String::new(rt.alloc()),
        NoFile::Device => format!(in rt.alloc(); "/dev/null")?,
    })
}

#[test]
fn what_is_no_file_is_refused(rt: HostRuntime) -> Result<(), Fail> {
    for (place, what) in NO_FILES.iter().enumerate() {
        let path = path_of(&rt, *what)?;
        assert!(rt; is_refused(&rt, &path)?, "path {place}");
    }
    Ok(())
}

const NO_FILES: &[NoFile] = &[
    NoFile::Folder,
    NoFile::InNoFolder,
    NoFile::NoName,
    NoFile::Device,
];

// Tells whether a disk over a path is refused, behind which another file stands since its opening.
fn is_replaced(rt: &HostRuntime, path: &String, other: &String) -> Result<bool, Fail> {
    let files = Replaced {
        rt: rt.clone()?,
        other: other.clone()?,
        asked: Cell::new(0),
    };
    let mut disk = FileDisk::at(files, path.clone()?, 4096);
    Ok(page_size(&mut disk).is_none())
}

// Tells whether such a disk is refused and leaves no file.
fn leaves_no_file(rt: &HostRuntime, path: &String, other: &String) -> Result<bool, Fail> {
    fs::write(rt, other.as_str(), "another file")?;
    let is_refused = is_replaced(rt, path, other)?;
    fs::remove_file(rt, other.as_str())?;
    Ok(is_refused && !fs::exists(rt, path.as_str())?)
}

// Tells whether a disk over a path makes a file of one page at a path.
fn makes_file(rt: &HostRuntime, path: &String, at: &String) -> Result<bool, Fail> {
    let is_done = does_at(rt, path, 1024, &[Call::Put(0, 7, true)])?;
    Ok(is_done && length_of(rt, at)? == 1024)
}

// Tells whether a disk is refused and leaves no file where its path leads elsewhere after the lock;
// where nothing else comes in, the same path is opened and there is a file.
fn is_refused_elsewhere(rt: &HostRuntime, path: &String) -> Result<bool, Fail> {
    let other = temporary(rt, "other")?;
    Ok(leaves_no_file(rt, path, &other)? && makes_file(rt, path, path)?)
}

// Tells whether a disk over a link to no file makes the file that it leads to.
fn makes_target(rt: &HostRuntime, path: &String) -> Result<bool, Fail> {
    let target = temporary(rt, "target")?;
    symlink(rt, target.as_str(), path.as_str())?;
    let is_made = makes_file(rt, path, &target)?;
    fs::remove_file(rt, target.as_str())?;
    Ok(is_made)
}

// What is shown, the name of the file, and what is tried on it.
const FILES: &[(&str, &str, Tried)] = &[
    (
        "a file keeps its pages and its lock",
        "pages",
        Tried::KeepsPages,
    ),
    (
        "a file is synced by the first settle after its opening",
        "unsynced",
        Tried::SyncsFirst,
    ),
    (
        "a file that was cut is neither read past its end nor written",
        "cut",
        Tried::IsCut,
    ),
    (
        "a path that leads elsewhere after the lock is refused and leaves no file",
        "replaced",
        Tried::LeadsElsewhere,
    ),
    (
        "a link to no file makes the file that it leads to",
        "link",
        Tried::LeadsToNoFile,
    ),
    // 8192 stands at byte 24.
    (
        "a file of 28 bytes tells its page size at byte 24",
        "front",
        Tried::HasSize(
            &[
                0, 0, 0, 0, 0, 0, 0, 0, 0, 0, 0, 0, 0, 0, 0, 0, 0, 0, 0, 0, 0, 0, 0, 0, 0, 0x20, 0,
                0,
            ],
            8192,
        ),
    ),
    (
        "a file of 27 bytes does not tell its page size",
        "front",
        Tried::HasSize(
            &[
                0, 0, 0, 0, 0, 0, 0, 0, 0, 0, 0, 0, 0, 0, 0, 0, 0, 0, 0, 0, 0, 0, 0, 0, 0, 0x20, 0,
            ],
            1024,
        ),
    ),
];

#[test]
fn what_a_disk_does_to_a_real_file(rt: HostRuntime) -> Result<(), Fail> {
    for (shows, name, tried) in FILES {
        assert!(rt; comes_out_at(&rt, name, *tried)?, "{shows}");
    }
    Ok(())
}

// The system's files, but that the second question about a path is answered for another file: as if
// the path led there since the file was opened.
#[derive(Drop)]
struct Replaced {
    rt: HostRuntime,
    other: String,
    asked: Cell<u32>,
}

impl Alloc for Replaced {
    type A = Global;

    fn alloc(&self) -> Global {
        self.rt.alloc()
    }
}

impl Files for Replaced {
    type File = <HostRuntime as Files>::File;

    type Dir = <HostRuntime as Files>::Dir;

    fn open_file(&self, how: &OpenOptions, path: &str) -> io::Result<Self::File> {
        self.rt.open_file(how, path)
    }

    fn open_dir(&self, path: &str) -> io::Result<Self::Dir> {
        self.rt.open_dir(path)
    }

    fn metadata(&self, path: &str) -> io::Result<Metadata> {
        let asked = self.asked.get();
        self.asked.set(asked.saturating_add(1));
        if asked == 1 {
            return self.rt.metadata(self.other.as_str());
        }
        self.rt.metadata(path)
    }

    fn symlink_metadata(&self, path: &str) -> io::Result<Metadata> {
        self.rt.symlink_metadata(path)
    }

    fn copy(&self, from: &str, to: &str) -> io::Result<u64> {
        self.rt.copy(from, to)
    }

    fn rename(&self, from: &str, to: &str) -> io::Result<()> {
        self.rt.rename(from, to)
    }

    fn remove_file(&self, path: &str) -> io::Result<()> {
        self.rt.remove_file(path)
    }

    fn create_dir(&self, path: &str) -> io::Result<()> {
        self.rt.create_dir(path)
    }

    fn remove_dir(&self, path: &str) -> io::Result<()> {
        self.rt.remove_dir(path)
    }

    fn remove_dir_all<B: Allocator>(&self, alloc: B, path: &str) -> io::Result<()> {
        self.rt.remove_dir_all(alloc, path)
    }

    fn canonicalize<B: Allocator>(&self, alloc: B, path: &str) -> io::Result<PathBuf<B>> {
        self.rt.canonicalize(alloc, path)
    }
}
