// The surgery of a planned operation.
ghost use Rattle.std.specs.Prelude.{◌≡◌, ◌<◌};
ghost use Rattle.border_theory.specs.Memory.Decision.{held_by};
ghost use Rattle.border_theory.specs.Memory.Performs.{Performs};

use cells::{LoopMemory, LoopMemoryMut};
use cutborder::Loops;
use rings::surgery::{backward, close, forward, mark_border, new_vertex, split, start, union};
use rules::Operation;

/// The loops after the planned operation o, where u is the next unused number and c the plan's place.
pub fn alter<M: LoopMemoryMut>(m: &mut M, l: Loops, u: u16, o: Operation, c: u16) -> Loops
    requires { Performs (M.places m.old) l (M.numbers m.old) u o c × (u < M.vertex_end) }
    ensures loops { result ≡ (held_by (M.places m.old) l (M.numbers m.old) u o c).loops }
    ensures memory { M.numbers m.new ≡ (held_by (M.places m.old) l (M.numbers m.old) u o c).memory }
    ensures kept { (M.places m.new ≡ M.places m.old) × (M.records m.new ≡ M.records m.old)
        × (M.lender m.new ≡ M.lender m.old) }
{
    match o {
        Operation::New => new_vertex(m, l, u),
        Operation::Forward => forward(m, l),
        Operation::Backward => backward(m, l),
        // Never met: an edge that is marked has no plan.
        Operation::Border => mark_border(m, l),
        Operation::Split(i) => split(m, l, i, c),
        Operation::Close => close(m, l),
        Operation::Union(k, _) => union(m, l, k, c),
        Operation::Start => start(m, l, u),
    }
}
