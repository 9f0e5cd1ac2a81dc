//! The fields of a page that change with its entries.

ghost use Rattle.std.specs.Prelude.{◌≡◌, ◌-◌, ◌≤◌, length};
ghost use Rattle.mg_node.specs.NodePage.{IsNodePage, count_in, end_in};
ghost use Rattle.mg_node_writing.specs.NodeChanges.{IsSized, room_in};
ghost use Rattle.mg_node_writing.specs.Splices.{SetsEnd};

use mg_base::{get_u16, put_u16};
use mg_node::{COUNT_AT, END_AT};

/// Where the entries of a page end.
pub(crate) fn end(b: &[u8]) -> usize
    requires { 1024 ≤ length b.now }
    ensures { result ≡ end_in b.now }
{
    get_u16(b, END_AT) as usize
}

/// How many bytes are free behind the entries.
pub(crate) fn room(b: &[u8]) -> usize
    requires sized { IsSized b.now }
    requires lawful { IsNodePage b.now }
    ensures { result ≡ room_in b.now }
{
    b.len() - end(b)
}

/// Sets the count of the entries, and where they end.
pub(crate) fn set_end(b: &mut [u8], count: u16, end: u16)
    requires { 1024 ≤ length b.old }
    ensures { SetsEnd b.old b.new count end }
{
    put_u16(b, COUNT_AT, count);
    put_u16(b, END_AT, end);
}
