//! The disk that runs work on, and a call of the program on it.

ghost use Rattle.std.specs.Prelude.{◌≤◌};

use crate::reading::words_of;
use mg_base::{Disk, FaultyDisk, MemDisk, MemSink, MemSource, Memory, PageNo, is_page_size};
use mg_fuse::CountsWrites;
use mg_program::{CLEAN_PAGES, Shelf, mgdb_with};
use std::alloc::Global;

/// The bytes for which a run's sink has room.
const SINK_ROOM: u32 = 1 << 20;

/// How a disk is made.
#[derive(Clone, Copy)]
pub struct Frame {
    /// The page size, in bytes.
    pub size: u32,
    /// For how many pages it has room.
    pub pages: u32,
    /// For how many page writes of one run it has room.
    pub writes: u32,
}

impl Frame {
    /// The frame of a disk for which nothing else is asked.
    pub const USUAL: Frame = Frame {
        size: 4096,
        pages: 16,
        writes: 64,
    };
}

/// A disk, and what is asked of the next run on it.
#[derive(Drop)]
pub struct Bench {
    pub disk: MemDisk,
    frame: Frame,
    written: usize,
    /// Which call of the source or of the sink fails in the next run, 0 for none.
    pub bad_take: u32,
    pub bad_put: u32,
    /// How many clean pages each run keeps in memory.
    pub clean: u32,
}

/// What is asked of a run beside its words.
#[derive(Clone, Copy)]
struct Setting {
    /// Which call of the source, and which of the sink fails, 0 for none.
    bad: (u32, u32),
    /// How many clean pages are kept in memory.
    clean: u32,
}

/// What goes wrong with the disk in a run.
#[derive(Clone, Copy)]
pub enum Mishap {
    Nothing,
    /// The run is given `--stop` with this number.
    Stop(u32),
    /// The call with this number fails.
    Fail(u32),
}

/// What a run came to.
#[derive(Drop)]
pub struct Said {
    pub status: u8,
    pub printed: String,
}

// A disk without pages. A page size that is none is taken for the usual one.
fn blank(alloc: Global, frame: Frame, more: u32) -> Result<MemDisk, Memory> {
    let size = if is_page_size(frame.size) {
        frame.size
    } else {
        Frame::USUAL.size
    };
    MemDisk::new(alloc, size, frame.pages, frame.writes.saturating_add(more))
}

/// A page of a disk, if it has that page.
///
/// # Errors
///
/// `Memory` only.
pub fn read_page(alloc: Global, disk: &mut MemDisk, page: u32) -> Result<Option<Vec<u8>>, Memory> {
    let Ok(size) = disk.page_size() else {
        return Ok(None);
    };
    let Ok(pages) = disk.pages() else {
        return Ok(None);
    };
    if page >= pages {
        return Ok(None);
    }
    let mut bytes = vec![in alloc; 0u8; size as usize]?;
    if disk.read(PageNo(page), &mut bytes).is_err() {
        return Ok(None);
    }
    Ok(Some(bytes))
}

// Writes a page of a disk, and tells whether it was written.
fn write_page(disk: &mut MemDisk, page: u32, bytes: &[u8]) -> bool {
    let Ok(size) = disk.page_size() else {
        return false;
    };
    if bytes.len() != size as usize {
        return false;
    }
    disk.write(PageNo(page), bytes).is_ok()
}

// The number of pages of a disk.
fn pages_of(disk: &mut MemDisk) -> u32 {
    disk.pages().unwrap_or(0)
}

// A disk with the first pages of another one.
fn copy_of(alloc: Global, disk: &mut MemDisk, frame: Frame, most: u32) -> Result<MemDisk, Memory> {
    let pages = pages_of(disk).min(most);
    let mut copy = blank(alloc, frame, pages)?;
    for page in 0..pages {
        if let Some(bytes) = read_page(alloc, disk, page)? {
            write_page(&mut copy, page, &bytes);
        }
    }
    let _ = copy.settle();
    Ok(copy)
}

impl Bench {
    /// A blank disk.
    ///
    /// # Errors
    ///
    /// `Memory` only.
    pub fn new(alloc: Global, frame: Frame) -> Result<Bench, Memory> {
        Ok(Bench {
            disk: blank(alloc, frame, 0)?,
            frame,
            written: 0,
            bad_take: 0,
            bad_put: 0,
            clean: CLEAN_PAGES,
        })
    }

    /// Takes a blank disk in the place of this one.
    ///
    /// # Errors
    ///
    /// `Memory` only.
    pub fn renew(&mut self, alloc: Global, frame: Frame) -> Result<(), Memory> {
        *self = Bench::new(alloc, frame)?;
        Ok(())
    }

    /// The same disk once more.
    ///
    /// # Errors
    ///
    /// `Memory` only.
    pub fn copy(&mut self, alloc: Global) -> Result<Bench, Memory> {
        Ok(Bench {
            disk: copy_of(alloc, &mut self.disk, self.frame, u32::MAX)?,
            frame: self.frame,
            written: 0,
            bad_take: self.bad_take,
            bad_put: self.bad_put,
            clean: self.clean,
        })
    }

    /// How many page writes of runs the disk obeyed since this was last asked.
    pub fn take_written(&mut self) -> usize {
        let written = self.written;
        self.written = 0;
        written
    }

    /// How many pages there are.
    pub fn pages(&mut self) -> u32 {
        pages_of(&mut self.disk)
    }

    /// A byte of a page, if it is there.
    ///
    /// # Errors
    ///
    /// `Memory` only.
    pub fn byte(&mut self, alloc: Global, page: u32, at: u32) -> Result<Option<u8>, Memory> {
        match read_page(alloc, &mut self.disk, page)? {
            Some(bytes) => Ok(bytes.get(at as usize).copied()),
            None => Ok(None),
        }
    }

    /// Sets a byte of a page, and tells whether it is there. A page past the end is zero.
    ///
    /// # Errors
    ///
    /// `Memory` only.
    pub fn set(&mut self, alloc: Global, page: u32, at: u32, value: u32) -> Result<bool, Memory> {
        let mut bytes = match read_page(alloc, &mut self.disk, page)? {
            Some(bytes) => bytes,
            None => vec![in alloc; 0u8; self.frame.size as usize]?,
        };
        let at = at as usize;
        if at >= bytes.len() || value > 255 {
            return Ok(false);
        }
        bytes[at] = value as u8;
        Ok(write_page(&mut self.disk, page, &bytes))
    }

    /// Makes each byte of a page 0.
    ///
    /// # Errors
    ///
    /// `Memory` only.
    pub fn zero(&mut self, alloc: Global, page: u32) -> Result<(), Memory> {
        let bytes = vec![in alloc; 0u8; self.frame.size as usize]?;
        write_page(&mut self.disk, page, &bytes);
        Ok(())
    }

    /// Cuts the disk off behind so many pages and bytes.
    ///
    /// # Errors
    ///
    /// `Memory` only.
    pub fn cut(&mut self, alloc: Global, pages: u32, bytes: u32) -> Result<(), Memory> {
        let last = front_of(alloc, &mut self.disk, pages, bytes as usize)?;
        let mut copy = copy_of(alloc, &mut self.disk, self.frame, pages)?;
        if let Some(last) = last {
            write_page(&mut copy, pages, &last);
        }
        self.keep(copy);
        Ok(())
    }

    // Takes a disk in the place of this one.
    fn keep(&mut self, disk: MemDisk) {
        self.disk = disk;
    }

    /// Calls the program on the disk, with the words of a line `$ run DB ..`.
    ///
    /// # Errors
    ///
    /// `Memory` only.
    pub fn run(
        &mut self,
        rt: &HostRuntime,
        line: &str,
        script: &str,
        mishap: Mishap,
    ) -> Result<Said, Memory> {
        let setting = Setting {
            bad: (self.bad_take, self.bad_put),
            clean: self.clean,
        };
        let words = command(rt.alloc(), line, mishap)?;
        let disk = copy_of(rt.alloc(), &mut self.disk, self.frame, u32::MAX)?;
        let before = disk.writes();
        let (said, disk) = call_on(rt, &words, disk, script, mishap, setting)?;
        let obeyed = disk.writes().saturating_sub(before);
        self.written = self.written.saturating_add(obeyed);
        self.keep(disk);
        self.bad_take = 0;
        self.bad_put = 0;
        Ok(said)
    }
}

/// Ends a bench: here alone its end is written out.
pub fn let_go(_bench: Bench) {}

// A page of a disk, if it has that page, with zeros behind so many bytes.
fn front_of(
    alloc: Global,
    disk: &mut MemDisk,
    page: u32,
    count: usize,
) -> Result<Option<Vec<u8>>, Memory> {
    match read_page(alloc, disk, page)? {
        Some(mut bytes) => {
            clear_from(&mut bytes, count);
            Ok(Some(bytes))
        }
        None => Ok(None),
    }
}

// Makes all bytes from a place on 0.
fn clear_from(bytes: &mut [u8], count: usize) {
    for at in count..bytes.len() {
        bytes[at] = 0;
    }
}

// Calls the program on a disk with which this goes wrong.
fn call_on(
    rt: &HostRuntime,
    words: &[String],
    disk: MemDisk,
    script: &str,
    mishap: Mishap,
    setting: Setting,
) -> Result<(Said, MemDisk), Memory> {
    match mishap {
        Mishap::Fail(call) => call_on_faulty(rt, words, disk, script, call, setting),
        Mishap::Nothing | Mishap::Stop(_) => call_program(rt, words, disk, script, setting),
    }
}

// Calls the program on a disk of which this call fails.
fn call_on_faulty(
    rt: &HostRuntime,
    words: &[String],
    disk: MemDisk,
    script: &str,
    call: u32,
    setting: Setting,
) -> Result<(Said, MemDisk), Memory> {
    let faulty = FaultyDisk::new(disk, bad_calls(rt.alloc(), call)?);
    let (said, faulty) = call_program(rt, words, faulty, script, setting)?;
    Ok((said, faulty.into_inner()))
}

// The words of a call: the program's name, then those of the line.
fn command(alloc: Global, line: &str, mishap: Mishap) -> Result<Vec<String>, Memory> {
    let mut words = words_of(alloc, line)?;
    if let Some(first) = words.first_mut() {
        *first = String::from_str(alloc, "mgdb")?;
    }
    if let Mishap::Stop(most) = mishap {
        words.push(String::from_str(alloc, "--stop")?)?;
        words.push(format!(in alloc; "{most}")?)?;
    }
    Ok(words)
}

// The numbers of calls that fail: this one, or none where it is 0.
fn bad_calls(alloc: Global, call: u32) -> Result<Vec<u32>, Memory> {
    let mut calls = Vec::new(alloc);
    if call > 0 {
        calls.push(call)?;
    }
    Ok(calls)
}

// A source of a script in which this call fails.
fn new_source(alloc: Global, script: &str, bad: u32) -> Result<MemSource, Memory> {
    let calls = bad_calls(alloc, bad)?;
    Ok(MemSource::new(Vec::from_slice(alloc, script.as_bytes())?, calls))
}

// A sink in which this call fails.
fn new_sink(alloc: Global, bad: u32) -> Result<MemSink, Memory> {
    MemSink::new(alloc, SINK_ROOM, bad_calls(alloc, bad)?)
}

// What a sink was given.
fn printed_in(alloc: Global, sink: &MemSink) -> Result<String, Memory> {
    match String::from_utf8(Vec::from_slice(alloc, sink.bytes())?) {
        Ok(text) => Ok(text),
        Err(_) => Ok(String::from_str(alloc, "no text\n")?),
    }
}

// A number, or one where it is 0.
fn one_at_least(count: u32) -> u32
    ensures { 1 ≤ result }
{
    if count == 0 { 1 } else { count }
}

// Calls the program, and tells its status. What the call promises ends here: nothing below needs it.
fn call<D: CountsWrites + Drop + Send + 'static>(
    rt: &HostRuntime,
    words: &[String],
    disk: D,
    clean: u32,
    source: &mut MemSource,
    sink: &mut MemSink,
) -> Result<(u8, D), Memory> {
    let rt = rt.clone()?;
    let shelf = Shelf {
        first: disk,
        second: None,
    };
    let (status, shelf) = mgdb_with(rt, words, shelf, source, sink, one_at_least(clean));
    let Shelf { first, second: _ } = shelf;
    Ok((status.0, first))
}

// Calls the program over streams in memory.
fn call_program<D: CountsWrites + Drop + Send + 'static>(
    rt: &HostRuntime,
    words: &[String],
    disk: D,
    script: &str,
    setting: Setting,
) -> Result<(Said, D), Memory> {
    let mut source = new_source(rt.alloc(), script, setting.bad.0)?;
    let mut sink = new_sink(rt.alloc(), setting.bad.1)?;
    let (status, disk) = call(rt, words, disk, setting.clean, &mut source, &mut sink)?;
    let printed = printed_in(rt.alloc(), &sink)?;
    Ok((Said { status, printed }, disk))
}
