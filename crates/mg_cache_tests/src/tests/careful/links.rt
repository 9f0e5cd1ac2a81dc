//! Tests of the links of a small format: a page names itself and the next page of its chain.

ghost use Rattle.std.specs.Prelude.{◌≡◌, [], ◌∷◌, ◌==◌, ◌++◌, if◌then◌else◌};
ghost use Rattle.mg_base.specs.Fields.{byte};

use crate::tests::calls::{Begins, Bench, run_each};
use mg_base::Memory;
use mg_careful::{Demand, Links, careful_write};
use std::alloc::Global;
use std::test::Fail;

/// A chain of pages: byte 0 is the page's own number, byte 1 that of the next page, 0 for none.
struct Chain;

impl Links for Chain {
    ghost demands_of = { λ b want. if byte b 1 == 0 then []
        else (record { target = byte b 1; what = 0; a = 0; b = 0 } ∷ []) };

    ghost meets_of = { λ b want. byte b 0 == want.target };

    ghost lawful_of = { λ page b. Unit {0} };

    fn demands(b: &[u8], _want: &Demand, out: &mut Vec<Demand>) -> Result<(), Memory> {
        let next = b.get(1).copied().unwrap_or(0);
        if next != 0 {
            out.push(demand_on(u32::from(next)))?;
        }
        Ok(())
    }

    fn meets(b: &[u8], want: &Demand) -> bool {
        u32::from(b.first().copied().unwrap_or(0)) == want.target
    }

    fn is_lawful(_page: u32, _b: &[u8]) -> bool {
        true
    }
}

fn demand_on(target: u32) -> Demand
    ensures { result ≡ record { target = target; what = 0; a = 0; b = 0 } }
{
    Demand {
        target,
        what: 0,
        a: 0,
        b: 0,
    }
}

/// Puts what a page of the chain wants in its turn, and tells whether it is what was wanted.
fn goes_on(page: &[u8; 2], want: &Demand, wanted: &mut Vec<Demand>) -> Result<bool, Memory> {
    if !Chain::meets(page, want) {
        return Ok(false);
    }
    Chain::demands(page, want, wanted)?;
    Ok(true)
}

/// Tells whether each page of the chain from page 1 is what the one before it wants.
fn is_linked(alloc: Global, pages: &[[u8; 2]; 4]) -> Result<bool, Memory> {
    let mut wanted = Vec::new(alloc);
    wanted.push(demand_on(1))?;
    for _ in 0..4 {
        let Some(want) = wanted.pop() else {
            return Ok(true);
        };
        let page = pages.get(want.target as usize).copied().unwrap_or([0, 0]);
        if !goes_on(&page, &want, &mut wanted)? {
            return Ok(false);
        }
    }
    Ok(false)
}

/// On the disk 1 leads to 2.
const DISK: [[u8; 2]; 4] = [[0, 0], [1, 2], [2, 0], [0, 0]];

/// In the pool 1 leads to the new page 3, and that to 2.
const POOL: [[u8; 2]; 4] = [[0, 0], [1, 3], [2, 0], [3, 2]];

/// The disk's pages, with page 1 and page 3 of the pool or without.
fn overlay(one: bool, three: bool) -> [[u8; 2]; 4] {
    let mut pages = DISK;
    if one {
        pages[1] = POOL[1];
    }
    if three {
        pages[3] = POOL[3];
    }
    pages
}

/// The overlays of the disk, each by itself.
#[derive(Drop)]
pub struct Overlays;

impl Bench for Overlays {
    /// Whether page 1 and page 3 are in a set, and whether the chain is linked then.
    type Call = (bool, bool, bool);

    ghost ready = { λ overlays. Unit {0} };

    fn does(&mut self, alloc: Global, set: &(bool, bool, bool)) -> bool {
        let (one, three, linked) = *set;
        is_linked(alloc, &overlay(one, three)) == Ok(linked)
    }
}

impl Begins for Overlays {
    type From = ();

    fn begin(_alloc: Global, _from: ()) -> Result<Overlays, Memory> {
        Ok(Overlays)
    }
}

/// Page 3 is ordered before page 1, so the set of page 1 alone isn't closed.
const SETS: &[(bool, bool, bool)] = &[
    (false, false, true),
    (false, true, true),
    (true, true, true),
    (true, false, false),
];

/// The law of careful write, of the chain.
fn law() {
    careful_write::<Chain>();
}

const RUNS: &[(&str, (), &[(bool, bool, bool)])] = &[(
    "a new page is linked in every overlay of a closed set",
    (),
    SETS,
)];

#[test]
fn a_new_page_is_linked_in_every_overlay_of_a_closed_set(rt: HostRuntime) -> Result<(), Fail> {
    law();
    run_each::<Overlays>(&rt, rt.alloc(), RUNS)
}
