//! Worked runs of the whole program: it reads descriptions of runs from standard input, runs the
//! top call on disks in memory, and writes what came. The files `stdin` and `stdout` beside `src/`
//! are read side by side: what is asked, and what has to come of it.
//!
//! Owns: the form of the descriptions (`reading`), the disk that they work on (`bench`), and the
//! transcript (`telling`, `trials`).
//!
//! | line | what is done, and what is written behind the line itself |
//! |---|---|
//! | `## TEXT` | a new blank disk, of pages of 4096 bytes |
//! | `$ run DB ..` | the program is called with these words on the disk; the lines below, up to the next one that begins with `##`, `$` or `%`, are its script. What it prints, and its status |
//! | `% lines FROM TO LINE` | in a script: the line once for each number from FROM to TO, which stands in the place of `#` |
//! | `% many COUNT TEXT LINE` | in a script: the line, with the text so many times in the place of `#` |
//! | `% disk SIZE PAGES WRITES` | a new blank disk with this page size and room, and room for so many page writes of one run |
//! | `% writes` | how many page writes the disk has obeyed since the last `% writes`, or since it was new |
//! | `% pages` | how many pages the disk has |
//! | `% byte PAGE AT` | the byte there, in hexadecimal |
//! | `% set PAGE AT N` | the byte there becomes N |
//! | `% zero PAGE` | each byte of the page becomes 0 |
//! | `% cut PAGES BYTES` | the disk keeps so many pages, and of the next one so many bytes, with zeros behind them |
//! | `% take N`, `% put N` | in the next run the N-th call of the source or of the sink fails |
//! | `% cache N` | runs on this disk keep at most N clean pages in memory from now on, 1 where N is 0; without this line 1024 |
//! | `% stops FROM TO` | the block of lines up to `% end`, once for each N from FROM to TO, on a copy of the disk: the first run of it with `--stop N`, of which the last line is written alone |
//! | `% fails FROM TO` | the same, where the N-th call of the disk in that first run fails |
//! | other lines | prose, which is repeated |
//!
//! Of a run that prints more than 40 lines the first and the last three are written. In a block the
//! answers stand in one line, and numbers with the same answers stand together.
//!
//! Invariant: none. Below: `mg_program`, the top call; `mg_base`, the disks in memory.
//! Not here: what any run has to print. That is the file `stdout`.
#![tactic(auto)]

mod bench;
mod reading;
mod telling;
mod trials;

use mg_base::{Memory, Sink, Source, StdSink, StdSource};
use reading::read_steps;
use std::process::ExitCode;
use telling::tell_all;

/// How many bytes are asked for at once, and how often at most.
const PIECE: usize = 16_384;

const PIECES: usize = 64;

/// The descriptions on standard input, up to a limit.
fn read_input(rt: &HostRuntime) -> Result<String, Memory> {
    let mut source = StdSource::new(rt.clone()?);
    let mut bytes = Vec::new(rt.alloc());
    let mut piece = [0u8; PIECE];
    for _ in 0..PIECES {
        let Ok(count) = source.take(&mut piece) else {
            break;
        };
        if count == 0 {
            break;
        }
        bytes.extend_from_slice(&piece[..count])?;
    }
    match String::from_utf8(bytes) {
        Ok(text) => Ok(text),
        Err(_) => Ok(String::new(rt.alloc())),
    }
}

/// Writes the transcript of what standard input describes.
fn work(rt: &HostRuntime) -> Result<(), Memory> {
    let text = read_input(rt)?;
    let steps = read_steps(rt.alloc(), text.as_str())?;
    let told = tell_all(rt, &steps)?;
    let mut sink = StdSink::new(rt.clone()?);
    // Where standard output fails there is nobody to tell.
    let _ = sink.put(told.as_bytes());
    Ok(())
}

fn main(rt: HostRuntime) -> ExitCode {
    match work(&rt) {
        Ok(()) => ExitCode::SUCCESS,
        Err(Memory) => ExitCode::FAILURE,
    }
}
