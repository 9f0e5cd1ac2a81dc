//! A keeper of records that finds rows by the indexes of tables.

ghost use Rattle.std.specs.Prelude.{◌≡◌, ◌<◌, IfOk, None, Some, length};
ghost use Rattle.std.specs.Option.{option_copied};
ghost use Rattle.mg_indexed.specs.Indexing.{FindsWithin, IndexWalksAreWhole, IndexWalksFollow, Indexing, NearsBy, VisitsBy};
ghost use Rattle.mg_model.specs.Changes.{KeyedRows};
ghost use Rattle.mg_records.specs.Adding.{AnswersAll};
ghost use Rattle.mg_records.specs.Asking.{WritesNoPage};
ghost use Rattle.mg_records.specs.Crashing.{LeavesQuietly};
ghost use Rattle.mg_records.specs.Keeping.{FaultsAreTold, MeetsNoDamage, Reads, refusal_in};
ghost use Rattle.mg_records.specs.Reading.{FindsFitting};
ghost use Rattle.mg_records.specs.Room.{TakesFew};
ghost use Rattle.mg_records.specs.Sessions.{SessionsStay};

use mg_base::{Memory, TxNo};
use mg_model::{Refusal, Table};
use mg_paths::Range;
use mg_records::{Found, Records};
use std::alloc::Global;

/// A keeper of records that finds rows by the indexes of tables.
pub trait Indexed: Records {
    /// Where a walk by an index has come to: an entry of the index.
    type Entry;

    /// What is still to come of a walk by an index.
    ghost indexing: { Indexing Self Self.Entry };

    /// An equal entry.
    ///
    /// # Errors
    ///
    /// `Memory` only.
    fn copy_entry(alloc: Global, entry: &Self::Entry) -> Result<Self::Entry, Memory>
        ensures { IfOk result (λ copied. copied ≡ entry.now) };

    /// Visits the next entry of an index of a table in a range of keys, behind an entry, or the first one for None. The
    /// index is named by its place in the table's list. It answers None exactly where there is no further entry. The row
    /// is that of the entry's record; None where the transaction sees no row there, or one whose value in the column of
    /// the index is not the entry's or does not lie in the range.
    ///
    /// It is no event. A row that it gives may stand in the table, and its value in the column lies in the range.
    ///
    /// # Errors
    ///
    /// As `scan_step`: `NotActive`, or from outside.
    fn index_step(
        &mut self,
        t: TxNo,
        table: &Table,
        index: usize,
        range: &Range,
        after: Option<&Self::Entry>,
    ) -> Result<Option<Found<Self::Entry>>, Refusal>
        requires table { Self.meaning.table self.old t.0 table.now.name ≡ Some table.now }
        requires index { index < length table.now.indexes }
        ensures answers { AnswersAll Self.meaning self.old t.0 result }
        ensures nears { NearsBy indexing self.old self.new t.0 table.now index range.now
            (option_copied after.entry) result }
        ensures fits { FindsFitting table.now.shape result }
        ensures within { FindsWithin table.now index range.now result }
        ensures visits { (rows : KeyedRows)
            → indexing.to_come self.old t.0 table.now index range.now (option_copied after.entry) rows
            → VisitsBy indexing self.new t.0 table.now index range.now result rows }
        ensures reads { Reads Self.meaning self.old self.new (refusal_in result) (Some t.0) }
        ensures told { FaultsAreTold Self.meaning self.old self.new (refusal_in result) }
        ensures undamaged { (rows : KeyedRows)
            → indexing.to_come self.old t.0 table.now index range.now (option_copied after.entry) rows
            → MeetsNoDamage Self.meaning self.old self.new }
        ensures room { TakesFew Self.meaning self.old self.new (refusal_in result) 0 }
        ensures unwritten { WritesNoPage Self.meaning self.old self.new }
        ensures crash { LeavesQuietly Self.meaning self.old self.new }
        ensures sessions { SessionsStay Self.meaning self.old self.new None None };

    ghost each: { IndexWalksAreWhole Self.meaning indexing };

    ghost follow: { IndexWalksFollow Self.meaning indexing };
}
