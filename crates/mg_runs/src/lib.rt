//! What a run of the program promises, in the terms of one history.
//!
//! Owns: the definitions by which a run is judged. In `specs/`: `Entry` (the disks on which a history can begin, and how
//! many free pages it is promised), `Headline` (one legal history of the lines, its transcript, that none of them is
//! answered DATABASE FULL where they need no more pages than were promised, that each image a crash leaves holds it and
//! is what a next history can begin with, that none has more pages than the page limit, and that the disk is not said to
//! be damaged), `GoingOn` (how a next history begins), `Promise` (the script, and the causes that hold over any disk).
//! `Laws` has what the steps of a run give of it; `OpeningLaws`, `BegunLaws`, `EndLaws`, `UnjudgedLaws`, `FaultLaws`,
//! `EntryLaws`, `GoingOnLaws`, `PromisingLaws`, `WithinLaws` and `MemLaws` prove that.
//!
//! Invariant: none, it keeps no state.
//! Below: `mg_scripts`, the lines of a script; `mg_engine_meaning_laws`, the opening and closing of an engine; `mg_transcript`,
//! the history of a script; `mg_run_ends`, how a run ends. Above: `mg_program`, whose calls keep these promises.
//! Not here: where the words and the script come from.
#![tactic(auto)]

mod laws;

pub use laws::{
    closings_fail, disks_in_memory_are_entries, lines_are_held, lines_fail, openings_are_judged,
    openings_fail, other_files_are_refused, runs_begin, runs_close, runs_stop,
    what_is_left_is_an_entry,
};
