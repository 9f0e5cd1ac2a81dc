//! What an engine means as a keeper of records, and which history it stands for.
//!
//! Owns: the definitions. The memory of a core is a standing (`standing_of`), but for the tables that its
//! transactions see and the numbers by which they name them, which are on the pages. A core over a disk that
//! tells its images stands for a history (`StandsFor`) where that standing does, for some such tables, the ones
//! that were given among them, and where each transaction keeps the tables of the changes that it has to take back
//! (`KeepsWritten`); while no page write has failed the pages show the history, the cache lasts with
//! it, the transaction list has the pages of transactions, the catalog begins where the header says, and
//! each table is plain, without an index or a later column, and has the same indexes, whoever comes to be committed
//! (`ShowsIt`): the engine puts no entries into indexes yet and writes rows of the first format alone, so an image whose
//! catalog names others is not covered; after one has failed memory alone is right, and what crashes leave (`KeepsIt`).
//! `means` is what
//! `mg_records` asks of a keeper: the rows to which a walk still comes (`ComesTo`), commits that were asked for
//! and those of which all is written (`HasWrittenAll`), what crashes leave, and the counts.
//!
//! And the laws that need no more: each engine is a keeper as far as that is said of one by itself
//! (`EnginesKeep`), and an event without pages, a mark, a savepoint or what was found, takes it on
//! (`MarksGoOn`, `SavepointsGoOn`, `FoundGoesOn`). `specs/Frames` has what a call leaves whatever the history
//! is; the files `..Laws` prove it for calls of one kind each, over plain variables.

ghost use Rattle.mg_engine_meaning_laws.specs.Laws.{EnginesKeep, FoundGoesOn, MarksGoOn, SavepointsGoOn};

use mg_base::Disk;
use mg_engine_step_laws::{entries_go_on, standings_go_on, walks_are_answered};
use mg_lasting_laws::crashes_hold;
use mg_space::FireLinks;
use mg_undo::the_list_follows_the_machine;

/// An engine is a keeper of records, as far as that is said of each one by itself: the tables that it gave
/// are those of its history, walks come to all rows, and every image that a crash may leave holds the history.
pub fn engines_keep<D: Disk, P>()
    ensures { EnginesKeep D P D.meaning }
{
    walks_are_answered();
}

/// A mark, a savepoint, and what was found: the engine stands for the history with the entry, and what is
/// another transaction's goes on as it was.
pub fn points_go_on<D: Disk, P>()
    ensures marks { MarksGoOn D P D.meaning }
    ensures savepoints { SavepointsGoOn D P D.meaning }
    ensures found { FoundGoesOn D P D.meaning }
{
    entries_go_on::<D, FireLinks>();
    standings_go_on();
    crashes_hold();
    the_list_follows_the_machine();
}
