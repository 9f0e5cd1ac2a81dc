//! The program: `mgdb run DB` obeys the script on standard input, on the database in the file DB, and
//! prints on standard output; `mgdb gfix DB list` prints the transactions in limbo of that file, and `mgdb gstat DB` its
//! figures.
//!
//! Owns: which file and which streams the top call gets, and the status that the process ends with. Only `run` gets
//! a file that may be made and written.
//!
//! Invariant: none, it keeps no state.
//! Below: `mg_program`, the top call, with all that is promised of a command; `mg_commands` for what the words ask for,
//! `mg_words` for the page size of a new file; `mg_device` for the file; `mg_base` for the streams; `mg_run_ends` for the
//! line of want of memory.
//! Not here: everything else.
#![tactic(auto)]

use mg_base::{StdSink, StdSource};
use mg_commands::{ProgramCommand, read_command};
use mg_device::FileDisk;
use mg_model::Refusal;
use mg_program::{Shelf, Status, mgdb};
use mg_run_ends::{fixed_line, put_line};
use mg_words::wanted_page;
use std::alloc::AllocError;
use std::env;
use std::io::ErrorKind;
use std::process::ExitCode;

// The words of the command line. Where one is no UTF-8 there are none, which is no command line.
fn given_words(rt: &HostRuntime) -> Result<Vec<String>, AllocError> {
    match env::args(rt) {
        Ok(args) => args.collect(rt.alloc()),
        Err(error) if error.kind() == ErrorKind::OutOfMemory => Err(AllocError),
        Err(_) => Ok(Vec::new(rt.alloc())),
    }
}

// The file that the words name. It is made and written by `run` alone; by any other words it is at most read.
fn file_at(rt: HostRuntime, words: &[String], path: String) -> FileDisk<HostRuntime> {
    let wanted = wanted_page(words);
    match read_command(words) {
        Some(ProgramCommand::Run(_)) => FileDisk::at(rt, path, wanted),
        _ => FileDisk::to_look_at(rt, path, wanted),
    }
}

// Runs the program over the real file and the real streams.
fn program(rt: &HostRuntime) -> Result<Status, AllocError> {
    let words = given_words(rt)?;
    let path = match words.get(2) {
        Some(path) => path.clone()?,
        None => String::new(rt.alloc()),
    };
    let shelf = Shelf {
        first: file_at(rt.clone()?, &words, path),
        second: None,
    };
    let mut source = StdSource::new(rt.clone()?);
    let mut sink = StdSink::new(rt.clone()?);
    let (status, _) = mgdb(rt.clone()?, &words, shelf, &mut source, &mut sink);
    Ok(status)
}

// Tells that there is no memory for the words of the command line, by a line that takes none.
fn without_memory(rt: HostRuntime) -> Status {
    put_line(fixed_line(Refusal::Memory), &mut StdSink::new(rt));
    Status::MEMORY
}

fn main(rt: HostRuntime) -> ExitCode {
    let status = match program(&rt) {
        Ok(status) => status,
        Err(_) => without_memory(rt),
    };
    ExitCode::from(status.0)
}
