//! The top call: the whole program, over any disk and any streams.

ghost use Rattle.std.specs.Prelude.{◌≡◌, ◌↔◌, ◌<◌, ◌≤◌, Some};
ghost use Rattle.mg_commands.specs.Program.{IsLimboLine, IsProgramLine, IsStatLine};
ghost use Rattle.mg_words.specs.declared.asked.Asked.{Asked as AnyAsked};
ghost use Rattle.mg_words.specs.Words.{IsRun, texts};
ghost use Rattle.mg_program.specs.Listing.{HasListed, ListsLimbo};
ghost use Rattle.mg_program.specs.Stating.{HasTold, TellsStat};
ghost use Rattle.mg_program.specs.Top.{HasRun, IsUsage, Runs, limit_asked};

use crate::running::run;
use mg_base::{GREATEST_LIMIT, Sink, Source};
use mg_commands::{ProgramCommand, read_command, run_lines_list_none, stat_lines_ask_once};
use mg_fuse::{CountsWrites, Stopped, stopped_disks_are_asked_for_no_more};
use mg_limbo_report::{LookEnd, tell_limbo};
use mg_pool::CLEAN_PAGES;
use mg_run_ends::{RunEnd, Status, put_line};
use mg_stat_report::tell_stat;
use mg_words::Asked;
use std::alloc::Global;

/// The disks that a command line names.
#[derive(Drop)]
pub struct Shelf<D> {
    pub first: D,
    /// The second database of a command that works on two.
    pub second: Option<D>,
}

/// As `mgdb_with`, where a run keeps at most `CLEAN_PAGES` clean pages in memory.
pub fn mgdb<R: AllocGlobal + Drop, D: CountsWrites + Send + 'static, S: Source, K: Sink>(
    rt: R,
    words: &[String],
    shelf: Shelf<D>,
    source: &mut S,
    sink: &mut K,
) -> (Status, Shelf<D>)
    ensures usage { (result.0.0 ≡ 2) ↔ (IsProgramLine (texts words.now) → ⊥) }
    ensures untouched { result.0.0 ≡ 2
        → IsUsage K.meaning shelf result.1 source.old source.new sink.old sink.new }
    ensures runs { (asked : AnyAsked) → IsRun (texts words.now) asked
        → HasRun D.meaning D.counts_to S.meaning K.meaning (texts words.now) source.old source.new shelf.first
        result.1.first sink.old sink.new result.0 }
    ensures lists { IsLimboLine (texts words.now)
        → HasListed D.meaning K.meaning source.old source.new shelf.first result.1.first sink.old sink.new result.0 }
    ensures tells { IsStatLine (texts words.now)
        → HasTold D.meaning K.meaning source.old source.new shelf.first result.1.first sink.old sink.new result.0 }
    ensures second { result.1.second ≡ shelf.second }
    ensures range { result.0.0 < 8 }
{
    mgdb_with(rt, words, shelf, source, sink, CLEAN_PAGES)
}

/// Does what the words ask for, and gives the disks back.
///
/// `words` begin with the program's name. Where they are no command line of a command that the program has, it prints
/// USAGE, and neither reads nor writes anything else.
///
/// `run DB` obeys the script. `--stop N` lets the first N page writes through and fails each later one; `--limit N` is the
/// greatest number of pages, and 131,072 without it, by which pages are free for what the lines write. `--page` is for who
/// makes the disk (`wanted_page`).
///
/// `gfix DB list` prints the transactions in limbo. It reads no script and writes no page, so `--stop` changes nothing.
///
/// `gstat DB` prints the figures of the file. It reads no script and writes no page.
///
/// A run keeps at most `clean` clean pages in memory, at least one. What is promised of it is the same for each number.
pub fn mgdb_with<R: AllocGlobal + Drop, D: CountsWrites + Send + 'static, S: Source, K: Sink>(
    rt: R,
    words: &[String],
    shelf: Shelf<D>,
    source: &mut S,
    sink: &mut K,
    clean: u32,
) -> (Status, Shelf<D>)
    requires { 1 ≤ clean }
    ensures usage { (result.0.0 ≡ 2) ↔ (IsProgramLine (texts words.now) → ⊥) }
    ensures untouched { result.0.0 ≡ 2
        → IsUsage K.meaning shelf result.1 source.old source.new sink.old sink.new }
    ensures runs { (asked : AnyAsked) → IsRun (texts words.now) asked
        → HasRun D.meaning D.counts_to S.meaning K.meaning (texts words.now) source.old source.new shelf.first
        result.1.first sink.old sink.new result.0 }
    ensures lists { IsLimboLine (texts words.now)
        → HasListed D.meaning K.meaning source.old source.new shelf.first result.1.first sink.old sink.new result.0 }
    ensures tells { IsStatLine (texts words.now)
        → HasTold D.meaning K.meaning source.old source.new shelf.first result.1.first sink.old sink.new result.0 }
    ensures second { result.1.second ≡ shelf.second }
    ensures range { result.0.0 < 8 }
{
    run_lines_list_none();
    stat_lines_ask_once();
    let Some(command) = read_command(words) else {
        put_line(b"mgdb: USAGE\n", sink);
        return (Status::USAGE, shelf);
    };
    let Shelf { first, second } = shelf;
    match command {
        ProgramCommand::Run(asked) => {
            let (end, first) = run_asked(rt.alloc(), asked, first, clean, source, sink);
            (end.status(), Shelf { first, second })
        }
        ProgramCommand::ListLimbo => {
            let (end, first) = list_limbo(rt.alloc(), first, sink);
            (end.status(), Shelf { first, second })
        }
        ProgramCommand::Stat => {
            let (end, first) = tell_figures(rt.alloc(), first, sink);
            (end.status(), Shelf { first, second })
        }
    }
}

// Lists the transactions in limbo of a disk that comes back.
fn list_limbo<D: CountsWrites, K: Sink>(alloc: Global, disk: D, sink: &mut K) -> (LookEnd, D)
    ensures { ListsLimbo D.meaning K.meaning disk result.1 sink.old sink.new result.0 }
{
    let mut disk = disk;
    let end = tell_limbo(alloc, &mut disk, sink);
    (end, disk)
}

// Tells the figures of a disk that comes back.
fn tell_figures<D: CountsWrites, K: Sink>(alloc: Global, disk: D, sink: &mut K) -> (LookEnd, D)
    ensures { TellsStat D.meaning K.meaning disk result.1 sink.old sink.new result.0 }
{
    let mut disk = disk;
    let end = tell_stat(alloc, &mut disk, sink);
    (end, disk)
}

// Obeys a command line that was read.
fn run_asked<D: CountsWrites + Send + 'static, S: Source, K: Sink>(
    alloc: Global,
    asked: Asked,
    disk: D,
    clean: u32,
    source: &mut S,
    sink: &mut K,
) -> (RunEnd, D)
    requires { 1 ≤ clean }
    ensures { Runs D.meaning D.counts_to S.meaning K.meaning (limit_asked asked) asked.stop source.old source.new
        disk result.1 sink.old sink.new result.0 }
{
    let limit = asked.limit.unwrap_or(GREATEST_LIMIT);
    match asked.stop {
        None => run(alloc, disk, limit, clean, source, sink),
        Some(most) => run_stopped(alloc, disk, limit, most, clean, source, sink),
    }
}

// The same on a disk that lets only the first page writes through.
fn run_stopped<D: CountsWrites + Send + 'static, S: Source, K: Sink>(
    alloc: Global,
    disk: D,
    limit: u32,
    most: u32,
    clean: u32,
    source: &mut S,
    sink: &mut K,
) -> (RunEnd, D)
    requires { 1 ≤ clean }
    ensures { Runs D.meaning D.counts_to S.meaning K.meaning limit (Some most) source.old source.new disk
        result.1 sink.old sink.new result.0 }
{
    stopped_disks_are_asked_for_no_more::<D>();
    let (end, stopped) = run(alloc, Stopped::new(disk, most), limit, clean, source, sink);
    (end, stopped.into_inner())
}
