//! What the keeper below does beside `Records`, the keeper that records does too: no line comes of it, since it is
//! no event.

ghost use Rattle.mg_recording.specs.Indexed.{each_via, follow_via, indexing_via};
ghost use Rattle.mg_recording.specs.Knowing.{Knows};
ghost use Rattle.mg_recording.specs.Via.{collecting_via, via};

use crate::Recording;
use mg_base::{Memory, TxNo};
use mg_indexed::Indexed;
use mg_model::{Refusal, Table};
use mg_paths::Range;
use mg_records::Found;
use mg_tending::{Collects, Keyed, PageWrites};
use mg_value::{Key, Row};
use std::alloc::Global;

impl<R: PageWrites> PageWrites for Recording<R> {
    fn write_page(&mut self) -> Result<bool, Refusal> {
        self.keeper.write_page()
    }
}

impl<R: Keyed> Keyed for Recording<R> {
    fn row_with_key(&mut self, t: TxNo, table: &Table, key: &Key) -> Result<Option<Row>, Refusal> {
        self.keeper.row_with_key(t, table, key)
    }
}

impl<R: Collects> Collects for Recording<R> {
    ghost collecting = { collecting_via R.collecting (λ t. t.keeper) };

    fn collect_place(&mut self, t: TxNo, table: &Table, place: &R::Place) -> Result<bool, Refusal> {
        self.keeper.collect_place(t, table, place)
    }

    fn collect_key(&mut self, t: TxNo, table: &Table, key: &Key) -> Result<bool, Refusal> {
        self.keeper.collect_key(t, table, key)
    }

    fn collect_all(&mut self) -> Result<(), Refusal> {
        self.keeper.collect_all()
    }
}

impl<R: Indexed> Indexed for Recording<R> {
    type Entry = R::Entry;

    ghost indexing = { indexing_via R.indexing (λ t. t.keeper) };

    fn copy_entry(alloc: Global, entry: &R::Entry) -> Result<R::Entry, Memory> {
        R::copy_entry(alloc, entry)
    }

    fn index_step(
        &mut self,
        t: TxNo,
        table: &Table,
        index: usize,
        range: &Range,
        after: Option<&R::Entry>,
    ) -> Result<Option<Found<R::Entry>>, Refusal> {
        self.keeper.index_step(t, table, index, range, after)
    }

    ghost each = { each_via R.meaning R.indexing (λ t. t.keeper) (λ t o h. Knows t.trace t.active o h) R.each };

    ghost follow = { follow_via R.meaning R.indexing (λ t. t.keeper) (λ t o h. Knows t.trace t.active o h) R.follow };
}
