//! What is read at an engine that stands for a history is what the machine says.
//!
//! Owns: the tie between `mg_seek`, which finds records by the pages, and `mg_engine_step_laws`, which says what they
//! have: one law for each call that reads.
//!
//! - `speaker`: what is found speaks for the key; where nothing is, no version of the key counts
//!   (`SpeakersAreTold`).
//! - `obstacle_for`, `row_in_view`: at the record that speaks for a key, who is in the way there and which
//!   row is seen (`ObstaclesAtKeys`, `RowsAtKeys`, `NothingAtKeys`).
//! - `view_step`: the rows to which a walk still comes are told by the pages alone (`AreToCome`); from the
//!   beginning on they are those of the view, and each visit comes to the next (`WalksBegin`, `WalksGoOn`).
//! - `table_named`: the table that is found under a name is the one that the history tells
//!   (`TablesAreTold`).
//!
//! A table is told but for its indexes, since one that a transaction sees may have got indexes (`IsShown`).
//! The files `Known`, `AnswersLaws`, `Walking` and `Tables` of `specs/` have what counts, and the others prove it. There is no
//! program here: each function does nothing, and its contract is a law.

ghost use Rattle.mg_engine_step_laws.specs.reads.AnswersLaws.{NothingAtKeys, ObstaclesAtKeys, RowsAtKeys, SpeakersAreTold};
ghost use Rattle.mg_engine_step_laws.specs.reads.Tables.{TablesAreTold};
ghost use Rattle.mg_engine_step_laws.specs.reads.Walking.{WalksBegin, WalksGoOn};

use mg_seek::{keys_are_those_of_the_history, records_are_those_of_every_reading, walks_are_whole};
use mg_snap::a_new_base_sees_what_has_ended;

/// Which record speaks for a key, who is in the way there, and which row is seen.
pub fn keys_are_answered()
    ensures speakers { SpeakersAreTold }
    ensures obstacles { ObstaclesAtKeys }
    ensures rows { RowsAtKeys }
    ensures nothing { NothingAtKeys }
{
    records_are_those_of_every_reading();
    keys_are_those_of_the_history();
    a_new_base_sees_what_has_ended();
}

/// A walk comes to the rows of a view, each once.
pub fn walks_are_answered()
    ensures begin { WalksBegin }
    ensures visits { WalksGoOn }
{
    records_are_those_of_every_reading();
    walks_are_whole();
}

/// The table of a name, as the rows of the catalog say it that a transaction sees.
pub fn tables_are_answered()
    ensures { TablesAreTold }
{
    records_are_those_of_every_reading();
    keys_are_answered();
}
