//! Worked batches, each with one of its orders of page writes left out after the other: it reads descriptions of
//! batches from standard input, has the calls of the program make them over disks in memory, and writes which
//! images a crash may leave then. The files `stdin` and `stdout` beside `src/` are read side by side; what they
//! show is the table of orders in docs/FILE-FORMAT.md, row by row.
//!
//! Owns: the form of the descriptions (`reading`), what is done (`deeds`), which pages are changed then, and which
//! is written before which (`laying`), the plain walk along the links of an image (`links`), the search for a
//! closed set whose overlay is not linked (`judging`), and the transcript (`telling`).
//!
//! | line | what is done |
//! |---|---|
//! | `## TEXT` | a new database of pages of 1024 bytes, all written |
//! | `% used N` | the page inventory says of the pages below N that they are used |
//! | `% next N` | the header says that N is the next transaction |
//! | `% settle` | all changed pages are written |
//! | `% draw N` | N numbers are drawn, one after another |
//! | `% add N BYTES` | N cells of so many bytes are added to KV, each in a batch of its own |
//! | `% spot` | a place in KV is taken for a record |
//! | `% first BYTES`, `% push BYTES`, `% replace BYTES`, `% out` | there, a version of the last number with a body of so many bytes is put as the first one, over the newest one or in place of it; the newest one is taken out |
//! | `% table` | the table T is made, by the last number |
//! | `% commit` | the bits of the last number are set, and written at once |
//! | `% tree` | a page is taken, and made an index tree of KV without entries |
//! | `% entry BYTE BYTES` | the entry of a key of so many equal bytes is put into the tree |
//! | `% orders` | what is changed and not written: the pages, how many sets of them are closed, and for each order that no others say, too, what a crash may leave without it |
//! | `% writes N` | the same of the page writes that the last N lines have made by themselves: what the last of them comes after |
//! | `% made` | the same of the page writes that made the database |
//! | other lines | prose, which is repeated |
//!
//! An order is left out of all that say which page is written before which, and each set of the changed pages is
//! tried that is closed then. Its overlay has to be linked from the roots; where it is, it has to keep what the law
//! of careful write says, too: what the cache wants of the pages of the set, and the disk of the others. What is
//! wanted stands as the table's words: its kind, two numbers, and its page.
//!
//! Invariant: none. Below: the crates that make batches, `mg_space` for the links of the format. Above: nothing.
//! Not here: that each batch pays for its links (`mg_demand_laws`), and that an order is needed wherever it pays
//! (`mg_demand_laws`).
#![tactic(auto)]

mod deeds;
mod judging;
mod laying;
mod links;
mod reading;
mod tables;
mod telling;

use mg_base::{Memory, Sink, Source, StdSink, StdSource};
use reading::read_steps;
use std::process::ExitCode;
use telling::tell_all;

/// How many bytes are asked for at once, and how often at most.
const PIECE: usize = 4096;

const PIECES: usize = 64;

/// The descriptions on standard input, up to a limit.
fn read_input(rt: &HostRuntime) -> Result<String, Memory> {
    let mut source = StdSource::new(rt.clone()?);
    let mut bytes = Vec::new(rt.alloc());
    let mut piece = [0u8; PIECE];
    for _ in 0..PIECES {
        let Ok(count) = source.take(&mut piece) else {
            break;
        };
        if count == 0 {
            break;
        }
        bytes.extend_from_slice(&piece[..count])?;
    }
    match String::from_utf8(bytes) {
        Ok(text) => Ok(text),
        Err(_) => Ok(String::new(rt.alloc())),
    }
}

/// Writes the transcript of what standard input describes.
fn work(rt: &HostRuntime) -> Result<(), Memory> {
    let text = read_input(rt)?;
    let steps = read_steps(rt.alloc(), text.as_str())?;
    let told = tell_all(rt.alloc(), &steps)?;
    let mut sink = StdSink::new(rt.clone()?);
    // Where standard output fails there is nobody to tell.
    let _ = sink.put(told.as_bytes());
    Ok(())
}

fn main(rt: HostRuntime) -> ExitCode {
    match work(&rt) {
        Ok(()) => ExitCode::SUCCESS,
        Err(Memory) => ExitCode::FAILURE,
    }
}
