// Turning about a vertex, through triangles that are not built: one look-up in the chains for each.
ghost use Rattle.std.specs.Prelude.{◌<◌, not, ◌≡◌, eqb};
ghost use Rattle.rules.specs.Limits.{max_triangles};
ghost use Rattle.mesh_theory.specs.Chains.Linked.{Linked};
ghost use Rattle.pack_theory.specs.Choosing.Choosable.{flag_of};
ghost use Rattle.chooser.specs.Ways.{first_of, start_of, end_of, Ends};

use corners::{Links, across};
use cutborder::Flags;

// Which way to turn about a vertex c: back over edges that come into c, or on over edges that leave it.
#[derive(Clone, Copy, Debug, PartialEq, Eq)]
pub(crate) enum Way {
    Back,
    On,
}

impl Way {
    // The triangle b a c's edge at c that is turned from is the one between c and this vertex.
    pub(crate) fn first(self, a: u16, b: u16) -> u16
        ensures { result ≡ first_of self a b }
    {
        match self {
            Way::Back => b,
            Way::On => a,
        }
    }

    // The edge between c and y that is turned over.
    pub(crate) fn edge(self, c: u16, y: u16) -> (u16, u16)
        ensures { (result.0 ≡ start_of self c y) × (result.1 ≡ end_of self c y) }
    {
        match self {
            Way::Back => (y, c),
            Way::On => (c, y),
        }
    }
}

// Whether triangle n is built.
fn is_built(built: &Flags, n: u16) -> bool
    requires { n < max_triangles }
    ensures { result ≡ not (eqb (flag_of built.now n) 0) }
{
    built[usize::from(n)] != 0
}

// From a triangle that has an edge between c and `first`, on that way over the next one into the triangle that has it, and so
// on: the vertex at whose edge turning ends, where a triangle that is built lies across it; none, where no triangle does.
pub(crate) fn turn(
    list: &[u16],
    chains: &Links,
    built: &Flags,
    way: Way,
    c: u16,
    first: u16,
) -> Option<u16>
    requires { Linked list.now chains.now × (first ≡ c → ⊥) }
    ensures { Ends way list.now built.now c first result }
{
    let mut last = first;
    for _ in 0..list.len() / 3 {
        let (x, y) = way.edge(c, last);
        let next = across(list, chains, x, y)?;
        if is_built(built, next.triangle) {
            return Some(last);
        }
        last = next.vertex;
    }
    Some(last)
}
