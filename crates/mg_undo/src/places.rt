//! The keys of the changes in the order of their pushes, and where each was pushed before.

ghost use Rattle.std.specs.Prelude.{◌≡◌, ℕ, ◌<◌, List, [], ◌∷◌, length, drop, IfOk, OnOk, OnErr};
ghost use Rattle.mg_sortkey.specs.KeyBytes.{key_bytes as key_bytes_of};
ghost use Rattle.mg_sortkey.specs.KeyOrder.{HasRange};
ghost use Rattle.mg_undo.specs.Places.{spot_of, spot_at, undone, is_past as is_past_of, repeats_spot, IsPushed};

use indexmap::IndexMap;
use mg_base::Memory;
use mg_sortkey::key_bytes;
use mg_value::{Key, Value};
use std::alloc::Global;
use std::collections::VecDeque;
use std::marker::Model;

/// A key of a table, told apart by its bytes.
#[derive(Debug, PartialEq, Eq, Hash, Drop)]
pub struct Place {
    /// The number of the table: its first pointer page.
    table: u32,
    /// The key bytes of the key.
    key: Vec<u8>,
}

/// Shows that a number has 64 bits, where it stands in a value.
fn note_number(number: i64)
    ensures { HasRange (Value.Int number) }
{}

/// Shows that the number of a value has 64 bits.
fn note_range(value: &Value)
    ensures { HasRange value.now }
{
    if let Value::Int(number) = value {
        note_number(*number);
    }
}

/// The place of a key of a table.
pub(crate) fn place_of(table: u32, key: &Key, alloc: Global) -> Result<Place, Memory>
    ensures spot { IfOk result (λ place. spot_of place ≡ (table, key_bytes_of key.now)) }
    ensures range { HasRange key.now }
{
    note_range(key.value());
    let mut bytes = Vec::new(alloc);
    key_bytes(key.value(), &mut bytes)?;
    Ok(Place { table, key: bytes })
}

/// One push of a place.
#[derive(Clone, Copy, Debug)]
pub struct Push {
    /// The entry of the place.
    entry: usize,
    /// How many pushes came before the last one of the same place, if there was one.
    earlier: Option<usize>,
}

/// Tells whether a push is one after the first `floor`.
fn is_past(floor: usize, push: Option<usize>) -> bool
    ensures { result ≡ is_past_of floor push }
{
    match push {
        Some(at) => at >= floor,
        None => false,
    }
}

/// Notes that a place is pushed after so many others.
fn note(latest: &mut IndexMap<Place, usize>, place: Place, at: usize) -> Result<Push, Memory>
    ensures pushed { IfOk result (λ push. IsPushed push latest.new.entries (spot_of place) at) }
    ensures before { IfOk result (λ push. undone push latest.new.entries ≡ latest.old.entries) }
    ensures err { OnErr result (latest.new.entries ≡ latest.old.entries) }
{
    let (entry, earlier) = latest.insert_full(place, at)?;
    Ok(Push { entry, earlier })
}

/// Forgets the last push: a place that was pushed for the first time goes.
fn forget(latest: &mut IndexMap<Place, usize>, push: Push)
    requires { push.entry < length latest.old.entries }
    ensures { latest.new.entries ≡ undone push latest.old.entries }
{
    match push.earlier {
        None => {
            latest.pop();
        }
        Some(at) => latest[push.entry] = at,
    }
}

/// The places in the order of their pushes. It is a stack that tells of its top where the same place
/// was pushed before.
#[derive(Debug, Drop)]
pub struct Places {
    /// The newest first.
    pushes: VecDeque<Push>,
    /// For each place, in the order of first pushes, how many pushes came before its last one.
    latest: IndexMap<Place, usize>,
}

impl Model for Places {
    ghost use Rattle.std.specs.Prelude.{ℕ, List};
    ghost use Rattle.mg_undo.specs.Places.{spots_of, AreLinked};

    ghost Value = { List (ℕ × List ℕ) };

    ghost view = { λ places. spots_of places.pushes.items places.latest.entries };

    ghost invariant = { λ places. AreLinked places.pushes.items places.latest.entries };
}

impl Places {
    /// No place was pushed. It takes no memory.
    pub(crate) fn new(alloc: Global) -> Places
        ensures { result ≡ [] }
    {
        Places {
            pushes: VecDeque::new(alloc),
            latest: IndexMap::new(alloc),
        }
    }

    /// Pushes a place.
    ///
    /// # Errors
    ///
    /// `Memory` only. Then nothing has changed.
    pub(crate) fn push(&mut self, place: Place) -> Result<(), Memory>
        ensures ok { OnOk result (self.new ≡ spot_of place ∷ self.old) }
        ensures err { OnErr result (self.new ≡ self.old) }
    {
        self.pushes.try_reserve(1)?;
        let push = note(&mut self.latest, place, self.pushes.len())?;
        self.pushes.push_front_reserved(push);
        Ok(())
    }

    /// Tells whether the place on top was pushed before, after the first `floor` pushes.
    pub(crate) fn repeats(&self, floor: usize) -> bool
        ensures { result ≡ repeats_spot floor self.now }
    {
        match self.pushes.front() {
            Some(push) => is_past(floor, push.earlier),
            None => false,
        }
    }

    /// Takes the newest push away. It takes no memory.
    pub(crate) fn pop(&mut self)
        ensures { self.new ≡ drop 1 self.old }
    {
        if let Some(push) = self.pushes.pop_front() {
            forget(&mut self.latest, push);
        }
    }
}
