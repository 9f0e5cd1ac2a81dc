//! Putting an entry into a page.

ghost use Rattle.std.specs.Prelude.{◌≡◌, ◌↔◌, ◌+◌, ◌≤◌, ◌<◌, IfErr, IsOk, OnErr, OnOk};
ghost use Rattle.mg_node.specs.NodePage.{IsNodePage, end_in, is_inner as is_inner_of, place_of};
ghost use Rattle.mg_node_writing.specs.Moves.{entry_len as entry_len_of};
ghost use Rattle.mg_node_writing.specs.NodeChanges.{InsertsEntry, IsEntryOf, IsSized, KeepsNode, TakesEntry, room_in};
ghost use Rattle.mg_node_writing.specs.Splices.{IsSeat, Opens, StandsAt};

use crate::bytes::{entry_len, move_bytes, put_entry};
use crate::fields::{end, room, set_end};
use crate::seat::{seat, stands_at};
use mg_node::{CONTENT_AT, Entry, count, is_inner, place};

/// An entry needs more bytes of a page than are free there.
#[derive(Clone, Copy, Debug, PartialEq, Eq)]
pub struct NoRoom {
    /// The bytes that the entry needs.
    pub need: u32,
    /// The bytes that are free behind the entries.
    pub room: u32,
}

/// Puts an entry into a page. Where it is there already, nothing changes.
///
/// The entry's key has an eighth of the page's bytes at most. It lies between the fences; its child
/// is 0 in a leaf; the page has no entry with its key and record and another child; and in an inner
/// page without entries it is the first one of such a page.
///
/// # Errors
///
/// `NoRoom`, exactly where the entry is not there and needs more bytes than are free. The page is
/// unchanged.
pub fn insert(b: &mut [u8], e: &Entry) -> Result<(), NoRoom>
    requires sized { IsSized b.old }
    requires lawful { IsNodePage b.old }
    requires takes { TakesEntry b.old e.now }

    // An entry that is there is inserted once.
    ensures there { IsEntryOf b.old e.now → IsOk result × (b.new ≡ b.old) }

    // Another one comes to be there, where it has room.
    ensures when { (IsEntryOf b.old e.now → ⊥)
        → (IsOk result ↔ (entry_len_of (is_inner_of b.old) e.now ≤ room_in b.old)) }
    ensures inserts { (IsEntryOf b.old e.now → ⊥) → OnOk result (InsertsEntry b.old b.new e.now) }

    // NoRoom tells both numbers.
    ensures no_room { IfErr result (λ it.
        it ≡ record { need = entry_len_of (is_inner_of b.old) e.now; room = room_in b.old }) }
    ensures unchanged { OnErr result (b.new ≡ b.old) }

    // Whatever the answer, all else stays, and the page is lawful.
    ensures keeps { KeepsNode b.old b.new }
    ensures lawful { IsNodePage b.new }
{
    let n = seat(b, e);
    if stands_at(b, n, e) {
        return Ok(());
    }
    check_room(entry_len(e, is_inner(b)), room(b))?;
    insert_at(b, n, e);
    Ok(())
}

/// Tells whether so many bytes are free.
fn check_room(need: usize, room: usize) -> Result<(), NoRoom>
    requires need { need < 65536 }
    requires room { room < 65536 }
    ensures when { IsOk result ↔ (need ≤ room) }
    ensures no_room { IfErr result (λ it. it ≡ record { need = need; room = room }) }
{
    if need > room {
        return Err(NoRoom {
            need: need as u32,
            room: room as u32,
        });
    }
    Ok(())
}

/// Puts an entry behind so many others.
fn insert_at(b: &mut [u8], n: usize, e: &Entry)
    requires sized { IsSized b.old }
    requires lawful { IsNodePage b.old }
    requires takes { TakesEntry b.old e.now }
    requires seat { IsSeat b.old e.now n }
    requires apart { StandsAt b.old n e.now → ⊥ }
    requires room { entry_len_of (is_inner_of b.old) e.now ≤ room_in b.old }
    ensures inserts { InsertsEntry b.old b.new e.now }
    ensures lawful { IsNodePage b.new }
{
    let at = place(b, n);
    open_at(b, at, e);
}

/// Moves the entries from a place on, and puts an entry there.
fn open_at(b: &mut [u8], at: usize, e: &Entry)
    requires sized { IsSized b.old }
    requires lawful { IsNodePage b.old }
    requires takes { TakesEntry b.old e.now }
    requires front { CONTENT_AT ≤ at }
    requires back { at ≤ end_in b.old }
    requires room { entry_len_of (is_inner_of b.old) e.now ≤ room_in b.old }
    ensures { Opens b.old b.new at e.now }
{
    let with_child = is_inner(b);
    let end = end(b);
    let len = entry_len(e, with_child);
    let count = count(b);
    move_bytes(b, at, at + len, end - at);
    put_entry(b, at, e, with_child);
    set_end(b, (count + 1) as u16, (end + len) as u16);
}
