//! Why no page of a sound database is found damaged, by whatever a program asks, and whatever fails meanwhile.
//!
//! # What a sound image is read as
//!
//! Who reads lawful records meets no damage, and neither does one who looks for a free page.
//!
//! Owns: what it is to see lawful records over a cache (`SeesLawful`): the rules of records hold, and each page of a
//! table is one of the data pages of a table that stands. Then none of the causes of damage holds that the reading
//! crates name: of a page that is read by its number (`PagesAreThere`), of a record's versions (`ChainsAreWhole`),
//! of its rows (`RowsAreRead`), of a table's pages and its records (`WalksAreWhole`, `TablesAreRead`), of a walk
//! over it (`VisitsAreMade`), of a page's place among those of its table (`PlacesAreKnown`). So those calls answer,
//! or are refused by the cache.
//!
//! It holds of one who fills a batch, too: a batch over a cache is as good as a cache in which its pages are dirty.
//! Of a table whose pages stand (`SeesStand`) it is so whatever else the pages hold (`StandsAreThere`).
//!
//! Besides: the next record of a walk has a later place (`WalksAscend`), no row is without its key (`RowsAreKeyed`),
//! and a page is taken from lawful inventory pages, or none is free (`PagesAreTaken`).
//!
//! # Batches of rows
//!
//! Whoever writes a version over a sound image, or draws a number, meets no damage: the batch is filled, and is
//! lawful.
//!
//! Owns: that none of the causes of damage holds that mg_heap, mg_chain and mg_txlist name of a batch that is not
//! filled, where the cache shows a sound image (`SeesSound`): a page with room is found or made (`RoomIsFound`), a place for a
//! record is given (`SpotsAreGiven`), a version is pushed (`PushesAreFilled`), a transaction's own newest one is
//! replaced (`ReplacementsAreFilled`), a newest one is taken out (`BackOutsAreFilled`), and the next number is drawn
//! (`NumbersAreDrawn`). Several newest versions are taken out in one batch, as long as the pages are sound after each
//! (`BackOutsGoOn`).
//!
//! Each batch that was filled so is lawful: it has few pages, each of them whole, and the orders among these lead
//! upward by a rank: page inventory pages and the header, the version's page, a new pointer page, the table's last one,
//! the page of the record's slot, the page of a cell that is freed. So the calls of `mg_row_writes` meet no damage, each
//! with a batch of its own: a place is taken and a record made there (`PlacesAreTaken`, `RecordsAreMade`), a version is
//! pushed, replaced and taken out (`VersionsArePushed`, `VersionsAreReplaced`, `VersionsAreTakenOut`).
//!
//! What a batch shows midway is no sound image; but the pages of the one table stand, after each cell that is put,
//! turned or freed, and more is not read of them.
//!
//! What its proofs say of tables that stand midway, of pages that are given, and of orders that lead upward stands in
//! `specs/` too, for batches of more rows than one.
//!
//! # Readings of the core
//!
//! Where an engine shows lawful tables, what its calls read for a write is read without damage.
//!
//! Owns: that the engine answers no damage where it looks for who is in the way by a table's row of the catalog
//! (`TablesArePassed`), for the row in the view at a key (`RowsAreFound`), for who is in the way there
//! (`RecordsArePassed`), and for what stands there (`BeforesAreRead`); nor where the keys of a table's records are read
//! for its directory (`KeysAreNoted`). A write that fits its table has its key (`KeysAreNamed`).
//!
//! # Whoever makes a table over a sound image meets no damage
//!
//! Owns: that none of the causes of damage holds that mg_table_batch names (`TablesAreMade`), where the cache shows a
//! sound image in which the table's maker counts as dead.
//!
//! While the batch is filled it shows such an image after each row: the writer of the rows is dead there, so no row of
//! his names a table yet. So a place is given for each row, and a record is made there.
//!
//! A batch in which the catalog gets no page is lawful: the page that is looked at first for room stands highest, each
//! later one lower, and all pages of other kinds below. A row's cell wants more room than its slot, so it comes to stand
//! on the slot's page or on a lower one. After two tries for each row, but for one, the catalog has more empty pages than
//! all rows of a table before its last one take (`HasEmpty`); then it gets none, and the batch is lawful.
//!
//! # The engine's calls
//!
//! An engine that stands for a history, and whose disk tells what it holds, meets no damage in a call.
//!
//! Owns: that the count of damage stands from the engine before a call to the one after it (`DamageStands`), by what the
//! core promises of each call: a transaction begins (`BeginsMeetNone`), a statement begins, a mark or a savepoint is set, a
//! transaction is rolled back (`LooksMeetNone`, `WaitsMeetNone`, `PointsMeetNone`, `RollbacksMeetNone`), pages are written
//! and a commit ends (`AsksMeetNone`, `StepsMeetNone`, `CommitsMeetNone`, `PageWritesMeetNone`), a row is written
//! (`WritesMeetNone`), a table is looked for (`TablesMeetNone`), and a walk behind whose place rows are to come goes on
//! (`VisitsMeetNone`). The count rises by a refusal that tells damage alone, and there is none: the pages show a sound
//! image, also once the first of two batches of a write was changed; and a row that fits its table fits a page.
//!
//! # Rows and tables are taken back
//!
//! A transaction is taken back without damage, at an engine that stands for a history.
//!
//! Owns: that the count of damage stays in each outcome of the core's calls that take a transaction back.
//!
//! - In the middle of the way back the pages show what is not taken back yet (`StandsMidway`): the record that speaks for a
//!   key that is still to be taken back is the one that spoke for it at first, and its newest version is the
//!   transaction's own. So the key is found, and its version is taken out or replaced, without damage (`KeysMeetNoDamage`).
//! - The rows of the catalog go one by one, each in a batch of its own. With their maker dead the pages are sound before and
//!   after each of them, so it is read and taken out as over a sound image (`RowsMeetNoDamage`), where it is there to be
//!   taken out (`RowIsThere`): it stood alone in its record when the way back began, and each key goes once.
//! - So an engine takes a transaction back to its last mark or to a savepoint without damage, where no change since is of
//!   the catalog (`MarksMeetNoDamage`, `SavepointsMeetNoDamage`), and over tables that it has made
//!   (`MarksOverMeetNoDamage`, `SavepointsOverMeetNoDamage`).
//!
//! # A table is made at the engine
//!
//! An engine that stands for a history, and whose disk tells what it holds, meets no damage as a table is made.
//!
//! Owns: that the count of damage stands from the engine before the call to the one after it, by what mg_table_making
//! promises of it (`CreationsMeetNone`); and that the catalog gets few data pages for the table (`CreationsGrowFew`).
//!
//! - Nobody speaks for a key of the new table where the core finds that one does and tells damage. Rows of the catalog are
//!   only made: so the newest version of a key for which somebody speaks gives a row. That of the table's own key is seen,
//!   or its maker is in the way; and a column's row has its table's row beside it, whoever counts as committed.
//! - What is read is read over a sound image, and the batch is filled over one in which the maker counts as dead.
//!
//! # Free pages
//!
//! An engine that stands for a history, and whose disk tells what a crash may leave, is refused by DATABASE FULL only
//! where fewer pages were free than a stated number, and takes no more of them (`RoomStands`): a transaction begins
//! (`BeginsTakeFew`: 2), a row is written (`WritesTakeFew`: 5), a table with c columns is made (`CreationsTakeFew`:
//! 4 + 5 * (c + 1)), a transaction is taken back (`MarksTakeFew`, `SavepointsTakeFew`, and over tables that it has made
//! `MarksOverTakeFew`, `SavepointsOverTakeFew`: 5 for each record that is taken back). Each other call takes none
//! (`LooksTakeNone`, ..).
//!
//! So whoever stands for a history with the room that its opening promises (`StandsWithRoom` of mg_records) stands so for
//! the longer one after a call: `specs/WithRoom` has it of each form of clause, over any keeper of records, and
//! `specs/AlikeRoom` has what such a clause says of other things.
//!
//! There is no program here: each function does nothing, and its contract is a law.
//!
//! Invariant: none, it keeps no state.
//! Below: `mg_core` and the layers under it, whose clauses name each cause of damage; `mg_engine_change_laws`, of what an engine stands for.
//! `mg_free_page_laws`, of what each batch takes.
//! Above: `mg_engine`, whose calls have it as their clauses `undamaged` and `room`.
//! Not here: faults of the disk (`mg_engine_change_laws`, module `faults`).
#![tactic(auto)]

mod backs;
mod cores;
mod engines;
mod growths;
mod makings;
mod reads;
mod room;
mod tables;
mod views;
mod walks;
mod writes;

pub use backs::{
    backs_meet_no_damage, backs_over_meet_no_damage, keys_meet_no_damage, rows_meet_no_damage,
    trees_stand_back,
};
pub use cores::{reads_meet_no_damage, writes_have_keys};
pub use engines::{
    begins_meet_no_damage, commits_meet_no_damage, events_meet_no_damage, writes_meet_no_damage,
};
pub use growths::creations_grow_few;
pub use makings::creations_meet_no_damage;
pub use reads::{
    keys_are_read, lawful_records_are_read, lawful_tables_are_read, pages_are_taken,
    pages_are_there, rows_are_keyed, sound_images_are_lawful, stands_are_read, walks_ascend,
};
pub use room::{
    backs_over_take_few, backs_take_few, begins_take_few, commits_take_none, counts_are_known,
    creations_take_few, events_take_none, readings_take_none, room_is_known, writes_take_few,
};
pub use tables::tables_are_made;
pub use views::tables_meet_no_damage;
pub use walks::visits_meet_no_damage;
pub use writes::{
    newest_versions_change, numbers_are_drawn, records_are_made, records_change, rooms_are_found,
    versions_are_pushed, versions_go_out,
};
