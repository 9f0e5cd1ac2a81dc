//! What is known of places, and of counts, by their sizes.

ghost use Rattle.std.specs.Prelude.{◌≡◌, ◌<◌, ◌^◌, Ok};
ghost use Rattle.mg_engine_meaning_laws.specs.Counts.{HasCounts};
ghost use Rattle.mg_engine_meaning_laws.specs.Reads.{IsInRank};
ghost use Rattle.mg_no_damage_laws.specs.Walks.{IsShortPlace};

use mg_base::{Disk, Memory};
use mg_core::{Core, Place};
use mg_model::Refusal;
use mg_records::Found;
use std::alloc::Global;

/// An equal place.
///
/// # Errors
///
/// None: places need no memory.
pub(crate) fn copy_place(_alloc: Global, place: &Place) -> Result<Place, Memory>
    ensures { result ≡ Ok place.now }
{
    Ok(*place)
}

/// The counts of faults are numbers of eight bytes.
pub(crate) fn counts_fit(damage: u64, shortages: u64)
    ensures { (damage < 2 ^ 64) × (shortages < 2 ^ 64) }
{}

/// Damage and want of pages are counted in 64 bits.
pub(crate) fn tell_counts<D: Disk>(core: &Core<D>)
    ensures { HasCounts core.now }
{
    let _damage = core.damage;
    let _shortages = core.shortages;
}

/// What a visit has come to: the place has a rank of six bytes, as each place has.
pub(crate) fn ranked(
    visited: Result<Option<Found<Place>>, Refusal>,
) -> Result<Option<Found<Place>>, Refusal>
    ensures rank { IsInRank result }
    ensures same { result ≡ visited }
{
    visited
}

/// The slot of a place has two bytes.
pub(crate) fn slots_fit(place: Option<Place>)
    ensures { IsShortPlace place }
{}
