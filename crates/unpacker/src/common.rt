// Deciding an operation and doing it, with those by which nearly all triangles are built, new and forward, at hand; the others are
// the core's. The answers are those of the core's functions of the same names, found in fewer steps: through the core's alone
// unpacking misses its bar of speed. (DECISIONS: passing the arguments costs more than the work. It keeps no figure.)
ghost use Rattle.std.specs.Prelude.{◌≡◌, ◌<◌};
ghost use Rattle.border_theory.specs.Memory.Decision.{proposed_at, held_by};
ghost use Rattle.border_theory.specs.Memory.Performs.{Proposable, Performs};

use border::plan::{forward_plan, new_plan};
use cells::{LoopMemory, LoopMemoryMut};
use cutborder::{Action, Loops};
use rings::live::Live;
use rings::surgery::{forward, new_vertex};
use rules::Operation;
use rules::refusal::Refusal;

// 16, or what would be done with the loops l, where u is the next unused number.
pub(crate) fn propose<M: LoopMemory>(
    m: &M,
    l: Loops,
    u: u16,
    o: Operation,
) -> Result<Action, Refusal>
    requires { Proposable (M.places m.now) l (M.numbers m.now) u }
    ensures { result ≡ proposed_at (M.places m.now) l (M.numbers m.now) u o }
{
    if l.live == 0 {
        return border::verdict::propose(m, l, u, o);
    }
    let live = Live {
        memory: m,
        loops: l,
    };
    match o {
        Operation::New => new_plan(&live, u),
        Operation::Forward => forward_plan(&live),
        _ => border::verdict::propose(m, l, u, o),
    }
}

// The loops after the planned operation o, where u is the next unused number and c the plan's place.
pub(crate) fn alter<M: LoopMemoryMut>(m: &mut M, l: Loops, u: u16, o: Operation, c: u16) -> Loops
    requires { Performs (M.places m.old) l (M.numbers m.old) u o c × (u < M.vertex_end) }
    ensures loops { result ≡ (held_by (M.places m.old) l (M.numbers m.old) u o c).loops }
    ensures memory { M.numbers m.new ≡ (held_by (M.places m.old) l (M.numbers m.old) u o c).memory }
    ensures kept { (M.places m.new ≡ M.places m.old) × (M.records m.new ≡ M.records m.old)
        × (M.lender m.new ≡ M.lender m.old) }
{
    match o {
        Operation::New => new_vertex(m, l, u),
        Operation::Forward => forward(m, l),
        // Made anew, so that the compiler keeps the loops of the other two in registers.
        _ => {
            let k = border::alter::alter(m, l, u, o, c);
            Loops {
                live: k.live,
                current: k.current,
                size: k.size,
                free: k.free,
            }
        }
    }
}
