//! A record in a directory, and the chains of such.

ghost use Rattle.std.specs.Prelude.{◌≡◌, ◌≤◌, ◌<◌, ◌++◌, ◌∷◌, ◌↔◌, ℕ, [], IfOk, IsTrue, OnOk, OnErr, length, map, reverse};
ghost use Rattle.mg_directory.specs.Candidates.{IsCandidate, room_of, with_its};
ghost use Rattle.mg_directory.specs.Chains.{IsHashed, LinksBack, Steps, chained, note_of};

use mg_base::{Memory, RecId};
use std::alloc::Global;

/// A record that was noted.
#[derive(Clone, Copy, Debug)]
pub struct Node {
    pub rec: RecId,
    /// Of the bytes of its key.
    pub hash: u32,
    /// Where its chain goes on: 0 for nowhere, else 1 more than the place of an earlier node.
    pub next: u32,
}

/// The node at a link.
fn node_at(nodes: &[Node], link: usize) -> Node
    requires some { 0 < link }
    requires below { link ≤ length nodes.now }
    requires back { LinksBack (reverse nodes.now) }
    ensures { (hash : ℕ) → Steps (reverse nodes.now) hash link result }
{
    nodes[link - 1]
}

/// Pushes a node's record, if the node has the hash.
///
/// # Errors
///
/// `Memory` only.
fn push_its(found: &mut Vec<RecId>, node: &Node, hash: u32) -> Result<(), Memory>
    ensures { OnOk result (found.new.items
        ≡ found.old.items ++ with_its hash node.now.hash node.now.rec []) }
{
    if node.hash == hash {
        found.push(node.rec)?;
    }
    Ok(())
}

/// The records under a hash of the chain that begins at a link, the newest first.
///
/// # Errors
///
/// `Memory` only.
pub(crate) fn records_under(
    alloc: Global,
    nodes: &[Node],
    hash: u32,
    head: u32,
) -> Result<Vec<RecId>, Memory>
    requires back { LinksBack (reverse nodes.now) }
    requires below { head ≤ length nodes.now }
    ensures { IfOk result (λ found. found.items ≡ chained (reverse nodes.now) hash head) }
{
    let mut found = Vec::new(alloc);
    let mut link = head as usize;
    while link > 0 {
        let node = node_at(nodes, link);
        push_its(&mut found, &node, hash)?;
        link = node.next as usize;
    }
    Ok(found)
}

/// Tells whether a node has the hash and the record.
fn is_note(node: &Node, hash: u32, rec: RecId) -> bool
    ensures { IsTrue result ↔ ((node.now.hash ≡ hash) × (node.now.rec ≡ rec)) }
{
    node.hash == hash && node.rec == rec
}

/// Tells whether a record is under a hash in the chain that begins at a link.
pub(crate) fn has_under(nodes: &[Node], hash: u32, head: u32, rec: RecId) -> bool
    requires back { LinksBack (reverse nodes.now) }
    requires below { head ≤ length nodes.now }
    ensures { IsTrue result ↔ IsCandidate (chained (reverse nodes.now) hash head) rec }
{
    let mut link = head as usize;
    while link > 0 {
        let node = node_at(nodes, link);
        if is_note(&node, hash, rec) {
            return true;
        }
        link = node.next as usize;
    }
    false
}

/// Puts a node in front of the chain of its hash.
///
/// # Errors
///
/// `Memory` only. Then nothing has changed.
pub(crate) fn put_node(
    heads: &mut Vec<u32>,
    nodes: &mut Vec<Node>,
    hash: u32,
    rec: RecId,
) -> Result<(), Memory>
    requires hashed { IsHashed heads.old.items nodes.old.items }
    requires room { length nodes.old.items < room_of (length heads.old.items) }
    ensures hashed { IsHashed heads.new.items nodes.new.items }
    ensures heads { length heads.new.items ≡ length heads.old.items }
    ensures ok { OnOk result (map note_of (reverse nodes.new.items)
        ≡ record { hash = hash; rec = rec } ∷ map note_of (reverse nodes.old.items)) }
    ensures err { OnErr result ((heads.new.items ≡ heads.old.items)
        × (nodes.new.items ≡ nodes.old.items)) }
{
    let place = hash as usize % heads.len();
    let next = heads[place];
    let node = Node { rec, hash, next };
    nodes.push(node)?;
    heads[place] = nodes.len() as u32;
    Ok(())
}
