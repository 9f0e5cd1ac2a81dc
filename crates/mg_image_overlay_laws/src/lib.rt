//! What every overlay of an image keeps while pages change: soundness, what is shown, and whose each page is.
//!
//! # Images under other facts
//!
//! What stays sound and what stays held: the steps of one image, and what every overlay has to be as long as a history
//! is under way.
//!
//! Owns:
//!
//! - `steps`: the steps of one image. A cell is put, a version pushed over another one or taken out, a page linked, bits
//!   of a transaction changed: a sound image stays sound over each.
//! - `kept`: the definition of what an overlay has to be (`IsKept`), and that what becomes of transactions keeps it.
//!
//! # Pages that are taken, drawn and linked
//!
//! Pages in overlays: what a batch owes that draws a number, gives a table a page, makes a table, or changes the bits of
//! a transaction, from the pool's change to every overlay.
//!
//! Owns: these batches as changes of pages, and the laws that each keeps what every overlay has to be.
//!
//! - `pages`: a number is drawn, a table gets a data page, a table is made, pages that nothing links are changed.
//! - `taken`: a free page is taken and made, and then another page names it.
//! - `bits`: the bits of a transaction are changed, and then their page is written.
//!
//! # Records in overlays: what a batch that writes versions owes, from the pool's change to every overlay
//!
//! Owns: the batches of records as steps of pages, and the laws that each keeps what every overlay has
//! to be. A version is pushed over a committed one (`Pushes..`), a record gets its first version
//! (`Adds..`). And the step of a committed version that comes to lead past some of those behind it, or nowhere
//! (`skip_at`): whoever collects frees their cells behind it.
//!
//! A batch is told by the views of its pages (`PushesPages`: the cell is put, then the slot is turned),
//! by the orders between them (`OrdersPush`), and by what is known of the record (`FindsRecord`). A
//! writer that counts as dead changes no version that counts, so an overlay may have each page of the
//! batch or not, as the orders allow (`DeadSteps`); with the writer in limbo the pool's own image is
//! looked at alone.
//!
//! All stands in `specs/`: `QuietSteps`, `DeadSteps` and `Behind` for one page; `PushPart`, `PushKept`
//! and `PushEvery`; `AddPart` and `AddEvery`; `OwnWrites` for any version of a writer in limbo; `Skips`
//! (one image), `SkipFronts` and `SkipShown` (the pool and an overlay), `SkipPart` (the page). There is no program
//! here: each function does nothing, and its contract is a law.
//!
//! # Each sound image holds something: a database, and the changes of its transactions in limbo
//!
//! Owns: the law (`SoundHolds`), and with it the database as a function. The places where a record may
//! begin are finitely many, the slots of the data pages (`Places`); so what a key of a table has is found
//! by going over them (`Listed`). One record shows a row under a table's name and a key, so it makes no
//! difference in which order.
//!
//! All stands in `specs/`: the lists in `Places` and `Listed`, what counts in `HeldLaws`, and `HeldSome`
//! proves it. There is no program here: the function does nothing, and its contract is the law.
//!
//! # Each page of a table says whose it is
//!
//! Owns: the law (`OwnersKeepStandsApart`) that tables with their pages on one image, each page once in its own
//! table, and with different first pages, share no page, and none with the pages of transactions. So who makes a
//! table has to know its own pages alone.
//!
//! All stands in `specs/`. There is no program here.
//!
//! # Tables that come to stand
//!
//! Tables that a transaction has made, in the catalog: under every choice of transactions in limbo its
//! rows are lawful and name them, and every overlay is kept.
//!
//! Owns: the law of catalog rows alone (`JoinNames`): rows of other tables with new names leave a catalog
//! lawful, and it names those too, each in its place. With it, what a statement owes of the catalog is
//! that its transaction's own rows say its tables (`MakesRows`), and that their keys are free.
//!
//! All stands in `specs/`: `JoinedRows` of rows alone, `MadeRows` under every choice, `Making` for
//! overlays. There is no program here: each function does nothing, and its contract is the law.
//!
//! # Whose table it is, by names
//!
//! Owns: the law (`NamesTellTables`) that takes what a statement knows of the catalog's rows, that under a choice
//! of transactions they name a table or not, to what the laws on its pages ask (`IsTableFor`): where no table
//! of the layout has the name, none of the table's pages is one of the layout's. It stands on this: with one
//! transaction more that counts, each table of the layout is one still, with the same pages of pointers and of
//! data (`Fewer`).
//!
//! All stands in `specs/`. There is no program here.
//!
//! # Records of tables, whoever has made these
//!
//! Tables in overlays: what a batch owes that writes versions of a transaction's own, or rows of a table that grows or
//! that its own transaction has made, from the pool's change to every overlay.
//!
//! Owns:
//!
//! - `own`: a version is replaced, moved, taken back, or taken out as a dead one.
//! - `grown`: a table gets pages, and then a version of a record is written, in one batch.
//! - `whose`: whose table it is, said once (`IsTableFor`), so that one law for each write serves the catalog, committed
//!   tables and those that the writer has made.
//! - `layout`, `stands`: a sound image stands in one way, and its tables stand where they stood while data pages change.
//!
//! There is no program here: each function does nothing, and its contract is a law.
//!
//! Invariant: none, it keeps no state.
//! Below: `mg_image`, soundness and what an image shows; `mg_overlay_laws`, the sets of pages; `mg_tree_overlay_laws`, when a
//! tree is behind another. Above: `mg_tie_laws`, of the batches of each layer.
//! Not here: batches that change index trees (`mg_entry_overlay_laws`), and which calls make such changes.
#![tactic(auto)]

mod bits;
mod grown;
mod held;
mod kept;
mod layout;
mod named_tables;
mod new_tables;
mod own;
mod owners;
mod pages;
mod records;
mod stands;
mod steps;
mod taken;
mod whose;

pub use bits::{bits_are_changed, bits_are_written, crashes_leave_either};
pub use grown::{first_versions_grow, growth_keeps, moves_grow, pushes_grow};
pub use held::sound_images_hold;
pub use kept::{
    active_ones_begin_and_end, commits_keep, crashes_leave, overlays_start, page_writes_keep,
};
pub use layout::sound_images_stand_one_way;
pub use named_tables::names_tell_tables;
pub use new_tables::{made_tables_keep, makers_name_more, rows_name_more};
pub use own::{dead_versions_go, moves_keep, replacements_keep, taking_back_keeps};
pub use owners::owners_keep_stands_apart;
pub use pages::{draws_keep, grown_tables_keep, new_tables_keep};
pub use records::{first_versions_keep, pushes_keep};
pub use stands::{data_pages_leave, tables_are_one};
pub use steps::{bits_stay_sound, commits_stay_sound, tables_have_makers};
pub use taken::{data_pages_keep, draws_with_a_page_keep, pointer_pages_keep};
pub use whose::{
    first_versions_keep_for, growth_keeps_for, moves_keep_for, pushes_keep_for,
    replacements_keep_for, taking_back_keeps_for,
};
