// The cut-border in a memory, and the eight operations on it: an operation is decided, which changes nothing, the edge rule is tested by
// the caller, and then it is done. The contracts cite border_theory/specs/Memory/; the theorem `decides` (border_theory/proofs/Memory)
// joins them to the machine of the rules.
#![tactic(auto)]

pub mod alter; // the surgery of a planned operation
pub mod count; // the counts after an operation
pub mod finish; // the end of a building
pub mod plan; // what each operation would do
pub mod touches; // what an operation touched, noted for the write-back to the lent list
pub mod triangles; // the triangle buffer
pub mod verdict; // whether an operation is allowed and has room

ghost use Rattle.std.specs.Prelude.{◌≡◌, ◌*◌, ◌≤◌, length};
ghost use Rattle.cutborder.specs.declared.Action.TheVariants.{Builds};
ghost use Rattle.border_theory.specs.Memory.Moves.{marked_held};
ghost use Rattle.border_theory.specs.Memory.Decision.{decided, held_after, built_front, marked_front};
ghost use Rattle.border_theory.specs.Memory.Keeps.{Ready};
ghost use Rattle.border_theory.specs.Memory.Fresh.{all_free, fresh_front};

use crate::alter::alter;
use crate::count::{count_built, count_marked};
use crate::verdict::{propose, test_room};
use cells::{LoopMemory, LoopMemoryMut};
use cutborder::{Action, Front, Loops, Plan};
use rings::surgery::mark_border;
use rings::walks::free_all;
use rules::refusal::Refusal;
use rules::{Counts, Operation, Peaks};

// `as u16` narrows a capacity, which `fits` of `LoopMemory` bounds by `max_places`: `try_from` would be no plainer.
/// A building with the counts stated begins: the state, with every place free.
pub fn begin<M: LoopMemoryMut>(m: &mut M, stated: Counts) -> Front
    requires { 5 * M.places m.old ≤ length (M.numbers m.old) }
    ensures state { result ≡ fresh_front (M.places m.old) stated }
    ensures memory { M.numbers m.new ≡ all_free (M.places m.old) (M.numbers m.old) (M.places m.old) }
    ensures kept { (M.places m.new ≡ M.places m.old) × (M.records m.new ≡ M.records m.old)
        × (M.lender m.new ≡ M.lender m.old) }
{
    free_all(m);
    let peaks = Peaks {
        places: 0,
        loops: 0,
    };
    let loops = Loops {
        live: 0,
        current: 0,
        size: 0,
        free: m.capacity() as u16,
    };
    Front {
        stated,
        used: 0,
        built: 0,
        peaks,
        edges: 0,
        starts: 0,
        unions: 0,
        rims: 0,
        loops,
    }
}

/// What the operation o would do: 16, then 17, or the plan of a triangle, or the edge to be marked as border.
#[tactic(auto, unfolding(border_theory::specs::Memory::Decision::decided, border_theory::specs::Memory::Decision::proposed))]
pub fn decide<M: LoopMemory>(m: &M, s: Front, o: Operation) -> Result<Action, Refusal>
    requires { Ready (M.places m.now) s (M.numbers m.now) }
    ensures { result ≡ decided (M.places m.now) s (M.numbers m.now) o }
{
    test_room(m.capacity(), s, propose(m, s.loops, s.used, o))
}

/// The planned operation o is done: the state after it. The memory past the waiting loops is unchanged.
pub fn build<M: LoopMemoryMut>(m: &mut M, s: Front, o: Operation, p: Plan) -> Front
    requires { Ready (M.places m.old) s (M.numbers m.old) × (decided (M.places m.old) s (M.numbers m.old) o ≡ Ok (Builds p)) }
    ensures state { result ≡ built_front (M.places m.old) s p (held_after (M.places m.old) s (M.numbers m.old) o p).loops }
    ensures memory { M.numbers m.new ≡ (held_after (M.places m.old) s (M.numbers m.old) o p).memory }
    ensures kept { (M.places m.new ≡ M.places m.old) × (M.records m.new ≡ M.records m.old)
        × (M.lender m.new ≡ M.lender m.old) }
{
    let l = alter(m, s.loops, s.used, o, p.place);
    count_built(m.capacity(), s, p, l)
}

/// The current edge is marked as border: the state after it.
pub fn mark<M: LoopMemoryMut>(m: &mut M, s: Front) -> Front
    requires { Ready (M.places m.old) s (M.numbers m.old) × (s.loops.live ≡ 0 → ⊥) }
    ensures state { result ≡ marked_front (M.places m.old) s (marked_held (M.places m.old) s.loops (M.numbers m.old)).loops }
    ensures memory { M.numbers m.new ≡ (marked_held (M.places m.old) s.loops (M.numbers m.old)).memory }
    ensures kept { (M.places m.new ≡ M.places m.old) × (M.records m.new ≡ M.records m.old)
        × (M.lender m.new ≡ M.lender m.old) }
{
    let l = mark_border(m, s.loops);
    count_marked(m.capacity(), s, l)
}
