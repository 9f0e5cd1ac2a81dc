//! What one page demands of others, and the law by which ordered page writes keep it.

ghost use Rattle.std.specs.Bool.{OnTrue};
ghost use Rattle.std.specs.Prelude.{◌≡◌, ◌++◌, OnOk, OnErr};
ghost use Rattle.mg_careful.specs.CarefulWrite.{Demands, Meets, Lawful, CarefulWrite, ListsAreSets};
ghost use Rattle.mg_careful.specs.CarefulSteps.{StaysCareful, BatchStaysCareful};

use mg_base::Memory;

/// What is wanted of a page: that the page `target` has a thing of the kind `what`, which `a` and
/// `b` describe further. The file's format says which kinds there are.
#[derive(Clone, Copy, Debug, PartialEq, Eq)]
pub struct Demand {
    pub target: u32,
    pub what: u8,
    pub a: u32,
    pub b: u32,
}

/// The links of a file format: what the things on its pages demand of other pages.
///
/// `b` is the content of the page that `want` names as its target, whatever its length.
pub trait Links {
    ghost demands_of: { Demands };

    ghost meets_of: { Meets };

    ghost lawful_of: { Lawful };

    /// Appends to `out` what the wanted thing demands in turn, by the one definition `demands_of`.
    ///
    /// # Errors
    ///
    /// `Memory` only. `out` is then as before.
    fn demands(b: &[u8], want: &Demand, out: &mut Vec<Demand>) -> Result<(), Memory>
        ensures ok { OnOk result (out.new.items ≡ out.old.items ++ demands_of b.now want.now) }
        ensures err { OnErr result (out.new.items ≡ out.old.items) };

    /// Tells whether the page has what is wanted, by the one definition `meets_of`.
    fn meets(b: &[u8], want: &Demand) -> bool
        ensures { result ≡ meets_of b.now want.now };

    /// Tells that a page of this number with these bytes is the page that it says it is, by the one
    /// definition `lawful_of`. It may be so where the answer is no.
    fn is_lawful(page: u32, b: &[u8]) -> bool
        ensures { OnTrue result (lawful_of page b.now) };
}

/// The careful-write law, for the links of every file format: the overlay of every closed set is
/// safe; a writer who was careful is so after the pages of a closed set were written out; and after a
/// batch he bears the demands, if the batch bears its own. Its sets of demands are tests; a list of
/// demands is one of them.
///
/// It does nothing: its contract is the law, so that a crate that orders its page writes can cite it.
pub fn careful_write<L: Links>()
    ensures overlays { CarefulWrite L.demands_of L.meets_of }
    ensures writes { StaysCareful L.demands_of L.meets_of }
    ensures batch { BatchStaysCareful L.demands_of L.meets_of }
    ensures lists { ListsAreSets }
{}
