//! The engine.

use mg_base::Disk;
use mg_core::Core;
use std::alloc::{Allocator, Global};
use std::marker::Model;

/// The engine over a disk.
#[derive(Drop)]
pub struct Engine<D: Disk> {
    pub(crate) core: Core<D>,
}

impl<D: Disk> Model for Engine<D> {
    ghost use Rattle.mg_core.specs.declared.parts.Core.{Core};
    ghost use Rattle.std.specs.Coded.{codes};
    ghost use Rattle.std.specs.Borrow.{u32 as word};
    ghost use Rattle.std.specs.contracts.alloc.Global as global;
    ghost use Rattle.std.specs.contracts.collections.BTreeMap as map;
    ghost use Rattle.mg_base.specs.contracts.bytes.Bytes as bytes;
    ghost use Rattle.mg_engine.specs.Engines.{IsEngine};

    ghost Value = { Core D };

    ghost coded = { Prim.hlevel (
      codes,
      (map.the_row word bytes.the_row global.the_row
          (record { cmp = ⟦<u32 as Ord>⟧.cmp }) (record { eq = ⟦<u32 as PartialEq>⟧.eq })
          (record { partial_cmp = ⟦<u32 as PartialOrd>⟧.partial_cmp })
          (record { dealloc_token = ⟦<Global as Allocator>⟧.dealloc_token })).coded,
    ) };

    ghost view = { λ engine. engine.core };

    ghost invariant = { λ engine. IsEngine D.meaning engine.core };
}

impl<D: Disk> Engine<D> {
    ghost use Rattle.std.specs.Prelude.{◌≡◌};
    ghost use Rattle.mg_engine.specs.Engines.{IsEngine};

    /// The engine whose core this is.
    pub fn new(core: Core<D>) -> Engine<D>
        requires { IsEngine D.meaning core }
        ensures { result ≡ core }
    {
        Engine { core }
    }

    /// The size of a page, in bytes.
    pub fn page_size(&self) -> u32
        ensures { result ≡ self.now.store.geometry.size }
    {
        self.core.page_size()
    }
}
