//! What the cache has noted of the room of data pages, for one who fills a batch.

ghost use Rattle.std.specs.Prelude.{◌≡◌, IfSome};
ghost use Rattle.mg_base.specs.Image.{Image};
ghost use Rattle.mg_pool.specs.Fault.{MeetsNoFault};
ghost use Rattle.mg_pool.specs.Pool.{IsPool, resident};
ghost use Rattle.mg_pool.specs.Rooms.{HasRoom};
ghost use Rattle.mg_slots.specs.Room.{room_of};
ghost use Rattle.mg_space.specs.View.{KeepsStore, Tells, viewed};

use crate::links::{FireLinks, Store};
use mg_base::{Disk, PageNo};
use mg_pool::{Batch, Tested};
use mg_slots::room;

/// How many bytes a new cell may take on a page, without a look at its bytes: where the cache has it
/// noted, and the batch has no content of the page.
pub fn known_room<D: Disk>(store: &Store<D>, batch: &Batch, page: PageNo) -> Option<u32>
    requires { IsPool D.meaning store.now }
    ensures { (image : Image) → Tells D.meaning store.now.disk image → IfSome result
        (λ room. room ≡ room_of (viewed store.now image batch.now page.0)) }
{
    match batch.bytes(page) {
        Some(_) => None,
        None => store.noted_room(page),
    }
}

/// Has the cache note how many bytes a new cell may take on a page, as the cache has it: where the page
/// is resident, and the cache has tested it as a data page. It takes no memory.
pub fn note_room<D: Disk>(store: &mut Store<D>, page: PageNo)
    requires { IsPool D.meaning store.old }
    ensures keeps { KeepsStore D.meaning store.old store.new }
    ensures faults { MeetsNoFault D.meaning store.old store.new }
{
    let Some(room) = room_here(store, page) else {
        return;
    };
    store.note_room(page, room);
}

/// How many bytes a new cell may take on a resident page that was tested as a data page.
fn room_here<D: Disk>(store: &Store<D>, page: PageNo) -> Option<u32>
    requires { IsPool D.meaning store.now }
    ensures { IfSome result (HasRoom (resident store.now page.0)) }
{
    match store.look(page) {
        Some(tested) => tested_room(tested, page),
        None => None,
    }
}

/// How many bytes a new cell may take on a page with this content, if it was tested as a data page.
fn tested_room(content: &Tested<FireLinks>, page: PageNo) -> Option<u32>
    ensures { IfSome result (λ room. room ≡ room_of content.now) }
{
    if content.passes(page.0) {
        Some(room(content.as_slice()))
    } else {
        None
    }
}
