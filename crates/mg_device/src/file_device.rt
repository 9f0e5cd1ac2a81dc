//! A device over a real file.
//!
//! It tells nothing of its content, since no proof can say what a file holds. Proved of it are its
//! counts, its page size and number of pages once they are known, that its descriptor is none of a
//! standard stream, and that it returns.

ghost use Rattle.std.specs.Prelude.{◌≡◌, ◌*◌, true, IfOk, IfSome, OnOk, OnErr, pos, ◌≤ℤ◌, ◌<◌, ◌+◌, ◌-◌, ◌^◌, max};
ghost use Rattle.std.specs.Fd.{file_raw_fd};
ghost use Rattle.std.specs.Option.{ForSome};
ghost use Rattle.mg_base.specs.Geometry.{is_page_size};

use crate::{Device, ForcedWrites};
use mg_base::{DiskFault, PageNo, get_u32, is_page_size};
use std::fs::{File, Files, Metadata, OpenOptions};
use std::io::ErrorKind;
use std::os::fd::AsRawFd;
use std::os::unix::fs::{FileExt, MetadataExt};
use std::{fs, io};

/// Where page 0 has the page size.
const SIZE_AT: usize = 24;
/// How much of a file has to be there for its page size to be read.
const FRONT: usize = 28;
/// The descriptors below this one are those of the standard streams.
const LEAST_DESCRIPTOR: i32 = 3;

/// What a call may do with a file.
#[derive(Clone, Copy, Debug, PartialEq, Eq)]
enum Access {
    /// It is made where it is not there, read and written.
    Work,
    /// It is read alone, and never made.
    Look,
}

/// The open file, if there is one, its length and its page size in bytes, and its number of pages. A
/// partial last page counts.
#[derive(Drop)]
struct Opened {
    // None where nothing was there and nothing may be made: then there are no pages.
    file: Option<File>,
    length: u64,
    size: u32,
    pages: u32,
    // What was written has been synced. What a file holds when it is opened may be in no more than
    // the system's memory.
    synced: bool,
    ghost lawful: { is_page_size size ≡ true },
    ghost above_streams: { ForSome file (λ it. pos 3 ≤ℤ file_raw_fd it) },
}

impl Opened {
    // Reads a page. What the file does not have of its last page is zero; a page of which it has
    // nothing is not read, nor one that was cut since the file was opened.
    fn read_page(&self, page: PageNo, into: &mut [u8]) -> io::Result<()> {
        let Some(file) = &self.file else {
            return Err(io::Error::from(ErrorKind::NotFound));
        };
        let start = start_of(page, self.size);
        if self.length <= start {
            return Err(io::Error::from(ErrorKind::UnexpectedEof));
        }
        let there = usize::try_from(self.length - start)
            .unwrap_or(into.len())
            .min(into.len());
        file.read_exact_at(&mut into[..there], start)?;
        into[there..].fill(0);
        Ok(())
    }

    // Writes a page. A file whose length another hand has changed is not written, nor one that may only
    // be read.
    fn write_page(&mut self, page: PageNo, bytes: &[u8]) -> io::Result<()>
        requires { page.0 < 2 ^ 32 - 1 }
        ensures size { self.new.size ≡ self.old.size }
        ensures pages { OnOk result (self.new.pages ≡ max self.old.pages (page.0 + 1)) }
        ensures not_written { OnErr result (self.new.pages ≡ self.old.pages) }
    {
        let Some(file) = &self.file else {
            return Err(io::Error::from(ErrorKind::NotFound));
        };
        if file.metadata()?.len() != self.length {
            return Err(io::Error::from(ErrorKind::UnexpectedEof));
        }
        self.synced = false;
        let start = start_of(page, self.size);
        let length = self.length.max(start.saturating_add(bytes.len() as u64));
        if let Err(error) = file.write_all_at(bytes, start) {
            if self.length < length {
                // Part of the page may be there, past the end that the file had.
                let _ = file.set_len(self.length);
            }
            return Err(error);
        }
        self.length = length;
        self.pages = self.pages.max(page.0 + 1);
        Ok(())
    }
}

/// A device over the file at a path, which it opens at its first call. From then on it has the file's
/// exclusive lock, so that no second process works on the file. Where nothing is at the path, the file
/// is made, or, by a device that only looks at it, taken as one without pages.
///
/// Only a regular file is opened: of anything else nothing is read or written. An opening that is
/// refused leaves no new file.
#[derive(Drop)]
pub struct FileDevice<R> {
    rt: R,
    path: String,
    access: Access,
    wanted: u32,
    opened: Option<Opened>,
    // A page write or a sync has failed.
    failed: bool,
    faults: u64,
    ghost sized: { is_page_size wanted ≡ true },
}

/// A disk over a real file, with forced writes.
pub type FileDisk<R> = ForcedWrites<FileDevice<R>>;

impl<R> ForcedWrites<FileDevice<R>> {
    /// A disk over the file at `path`, which is made where it is not there. `wanted` is the page size of
    /// a file that does not tell its own, one of the five. Nothing is opened yet.
    pub fn at(rt: R, path: String, wanted: u32) -> FileDisk<R>
        requires { is_page_size wanted ≡ true }
    {
        FileDisk::with(rt, path, Access::Work, wanted)
    }

    /// A disk over the file at `path`, to be read alone: the system opens it for reading, and each page
    /// write fails. No file is made: where none is there, the disk has no pages. `wanted` is the page size
    /// of a file that does not tell its own, one of the five. Nothing is opened yet.
    pub fn to_look_at(rt: R, path: String, wanted: u32) -> FileDisk<R>
        requires { is_page_size wanted ≡ true }
    {
        FileDisk::with(rt, path, Access::Look, wanted)
    }

    fn with(rt: R, path: String, access: Access, wanted: u32) -> FileDisk<R>
        requires { is_page_size wanted ≡ true }
    {
        ForcedWrites::new(FileDevice {
            rt,
            path,
            access,
            wanted,
            opened: None,
            failed: false,
            faults: 0,
        })
    }
}

impl<R: Files<File = File> + AllocGlobal> FileDevice<R> {
    ghost use Rattle.std.specs.Prelude.{◌≤◌, IsSome};
    ghost use Rattle.mg_base.specs.Disk.{Rose};
    ghost use Rattle.mg_device.specs.Device.{Rests};
    ghost use Rattle.mg_device.specs.FileDevice.{file_meaning};

    // Opens the file where it is not open yet.
    fn ready(&mut self) -> Result<(), DiskFault>
        ensures open { OnOk result (IsSome self.new.opened) }
        ensures rests { Rests file_meaning self.old self.new result }
    {
        if self.opened.is_some() {
            return Ok(());
        }
        let found = match self.access {
            Access::Work => open_file(&self.rt, &self.path, self.wanted),
            Access::Look => look_at_file(&self.rt, &self.path, self.wanted),
        };
        match found {
            Ok(opened) => {
                self.opened = Some(opened);
                Ok(())
            }
            Err(_) => Err(self.fault()),
        }
    }

    // Raises the count of faults.
    fn fault(&mut self) -> DiskFault
        ensures opened { self.new.opened ≡ self.old.opened }
        ensures failed { self.new.failed ≡ self.old.failed }
        ensures never_falls { self.old.faults ≤ self.new.faults }
        ensures rose { Rose self.old.faults self.new.faults }
    {
        self.faults = self.faults.saturating_add(1);
        DiskFault::Failed
    }
}

impl<R: Files<File = File> + AllocGlobal> Device for FileDevice<R> {
    ghost use Rattle.mg_device.specs.FileDevice.{file_meaning, file_device};

    ghost meaning = { file_meaning };

    ghost lawful = { file_device };

    fn page_size(&mut self) -> Result<u32, DiskFault> {
        self.ready()?;
        match &self.opened {
            Some(opened) => Ok(opened.size),
            None => Err(self.fault()),
        }
    }

    fn pages(&mut self) -> Result<u32, DiskFault> {
        self.ready()?;
        match &self.opened {
            Some(opened) => Ok(opened.pages),
            None => Err(self.fault()),
        }
    }

    fn read(&mut self, page: PageNo, into: &mut [u8]) -> Result<(), DiskFault> {
        let read = match &self.opened {
            Some(opened) => opened.read_page(page, into).is_ok(),
            None => false,
        };
        if read { Ok(()) } else { Err(self.fault()) }
    }

    fn write(&mut self, page: PageNo, bytes: &[u8]) -> Result<(), DiskFault> {
        let written = match &mut self.opened {
            Some(opened) if page.0 < u32::MAX => opened.write_page(page, bytes).is_ok(),
            _ => false,
        };
        if written {
            return Ok(());
        }
        self.failed = true;
        Err(self.fault())
    }

    fn sync(&mut self) -> Result<(), DiskFault> {
        let synced = match &mut self.opened {
            Some(opened) => {
                opened.synced = match &opened.file {
                    Some(file) => file.sync_data().is_ok(),
                    None => true,
                };
                opened.synced
            }
            None => true,
        };
        if synced {
            return Ok(());
        }
        self.failed = true;
        Err(self.fault())
    }

    fn is_synced(&self) -> bool {
        match &self.opened {
            Some(opened) => opened.synced,
            None => true,
        }
    }

    fn has_failed(&self) -> bool {
        self.failed
    }
}

// Opens or creates the file and takes its lock. Where it is refused after that, the file that was made
// is taken away, while the lock is held.
fn open_file<R: Files<File = File> + AllocGlobal>(
    rt: &R,
    path: &str,
    wanted: u32,
) -> io::Result<Opened>
    requires { is_page_size wanted ≡ true }
{
    let made = is_missing(rt, path)?;
    let file = above_streams(
        OpenOptions::new()
            .read(true)
            .write(true)
            .create(true)
            .open(rt, path)?,
    )?;
    file.try_lock()?;
    match look(rt, path, &file, wanted) {
        Ok((length, size)) => Ok(locked_file(file, length, size)),
        Err(error) => {
            if made {
                let _ = take_away(rt, path, &file);
            }
            Err(error)
        }
    }
}

// Opens the file for reading alone and takes its lock. Where nothing is at the path there are no pages.
fn look_at_file<R: Files<File = File>>(rt: &R, path: &str, wanted: u32) -> io::Result<Opened>
    requires { is_page_size wanted ≡ true }
{
    if is_missing(rt, path)? {
        return Ok(Opened {
            file: None,
            length: 0,
            size: wanted,
            pages: 0,
            synced: true,
        });
    }
    let file = above_streams(OpenOptions::new().read(true).open(rt, path)?)?;
    file.try_lock()?;
    let length = locked_length(rt, path, &file)?;
    let size = told_size(&file, length)?.unwrap_or(wanted);
    Ok(locked_file(file, length, size))
}

// A file that was opened and locked, of this length.
fn locked_file(file: File, length: u64, size: u32) -> Opened
    requires sized { is_page_size size ≡ true }
    requires above_streams { pos 3 ≤ℤ file_raw_fd file }
{
    Opened {
        file: Some(file),
        length,
        size,
        pages: u32::try_from(length.div_ceil(u64::from(size))).unwrap_or(u32::MAX),
        synced: false,
    }
}

// Tells whether nothing is at the path. A path that leads to something else than a file is refused.
fn is_missing<R: Files>(rt: &R, path: &str) -> io::Result<bool> {
    match fs::metadata(rt, path) {
        Ok(there) if there.is_file() => Ok(false),
        Ok(_) => Err(io::Error::from(ErrorKind::InvalidInput)),
        Err(error) if error.kind() == ErrorKind::NotFound => Ok(true),
        Err(error) => Err(error),
    }
}

// The file under a descriptor that is none of a standard stream. Where such a stream is closed, the
// system gives its descriptor to the next file that is opened, and what is printed would go there.
fn above_streams(file: File) -> io::Result<File>
    ensures { IfOk result (λ it. pos 3 ≤ℤ file_raw_fd it) }
{
    if file.as_raw_fd() >= LEAST_DESCRIPTOR {
        return Ok(file);
    }
    let moved = file.try_clone()?;
    if moved.as_raw_fd() >= LEAST_DESCRIPTOR {
        Ok(moved)
    } else {
        Err(io::Error::from(ErrorKind::Other))
    }
}

// The length of the file that is locked. A path that leads elsewhere by now, or to something else than a
// file, is refused.
fn locked_length<R: Files<File = File>>(rt: &R, path: &str, file: &File) -> io::Result<u64> {
    let locked = file.metadata()?;
    if !locked.is_file() || !is_same(&locked, &fs::metadata(rt, path)?) {
        return Err(io::Error::from(ErrorKind::InvalidInput));
    }
    Ok(locked.len())
}

// The length and the page size of the file that is locked. The name of an empty file is made to reach its
// folder.
fn look<R: Files<File = File> + AllocGlobal>(
    rt: &R,
    path: &str,
    file: &File,
    wanted: u32,
) -> io::Result<(u64, u32)>
    requires { is_page_size wanted ≡ true }
    ensures { IfOk result (λ it. is_page_size it.1 ≡ true) }
{
    let length = locked_length(rt, path, file)?;
    if length == 0 {
        let real = fs::canonicalize(rt, path)?;
        File::open(rt, folder_of(real.as_str()))?.sync_all()?;
    }
    let size = told_size(file, length)?.unwrap_or(wanted);
    Ok((length, size))
}

// Tells whether both are of one file.
fn is_same(one: &Metadata, other: &Metadata) -> bool {
    one.dev() == other.dev() && one.ino() == other.ino()
}

// Takes the file away, where it is still empty and the path still leads to it.
fn take_away<R: Files + AllocGlobal>(rt: &R, path: &str, file: &File) -> io::Result<()> {
    let locked = file.metadata()?;
    let real = fs::canonicalize(rt, path)?;
    if locked.len() == 0 && is_same(&locked, &fs::metadata(rt, real.as_str())?) {
        fs::remove_file(rt, real.as_str())?;
    }
    Ok(())
}

// The page size that a file of this length tells, if it tells one of the five.
fn told_size(file: &File, len: u64) -> io::Result<Option<u32>>
    ensures { IfOk result (λ told. IfSome told (λ size. is_page_size size ≡ true)) }
{
    if len < FRONT as u64 {
        return Ok(None);
    }
    let mut front = [0u8; FRONT];
    file.read_exact_at(&mut front, 0)?;
    let size = get_u32(&front, SIZE_AT);
    Ok(is_page_size(size).then_some(size))
}

// Where a page begins in the file.
fn start_of(page: PageNo, size: u32) -> u64
    ensures { result ≡ page.0 * size }
{
    u64::from(page.0) * u64::from(size)
}

// The folder of a path.
fn folder_of(path: &str) -> &str {
    match path.rfind('/') {
        Some(0) => "/",
        Some(at) => &path[..at],
        None => ".",
    }
}
