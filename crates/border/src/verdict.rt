// Whether an operation is allowed and has room: 16 and 17. Nothing is changed.
ghost use Rattle.std.specs.Prelude.{◌≡◌, ◌+◌, ◌*◌, ◌-◌, ◌≤◌, ◌<◌};
ghost use Rattle.rules.specs.Limits.{max_places, max_vertices};
ghost use Rattle.border_theory.specs.Memory.Decision.{rest_proposed, edge_proposed, proposed_at, room_for, decided_by};
ghost use Rattle.border_theory.specs.Memory.Performs.{Proposable};

use crate::plan::{
    backward_plan, border_plan, close_plan, forward_plan, new_plan, split_plan, start_plan,
    union_plan,
};
use cells::LoopMemory;
use cutborder::{Action, Front, Loops, Plan};
use rings::live::Live;
use rules::Operation;
use rules::refusal::Refusal;

// With no live loop only a start is allowed.
pub fn propose_rest(u: u16, o: Operation) -> Result<Action, Refusal>
    requires { u ≤ max_vertices }
    ensures { result ≡ rest_proposed u o }
{
    match o {
        Operation::Start => start_plan(u),
        _ => Err(Refusal::NotAllowed),
    }
}

// With a live loop all but a start are.
fn propose_edge<M: LoopMemory>(live: &Live<'_, M>, u: u16, o: Operation) -> Result<Action, Refusal>
    ensures { result ≡ edge_proposed (M.places live.now.memory.now) live.now.loops (M.numbers live.now.memory.now) u o }
{
    match o {
        Operation::New => new_plan(live, u),
        Operation::Forward => forward_plan(live),
        Operation::Backward => backward_plan(live),
        Operation::Border => border_plan(live),
        Operation::Split(i) => split_plan(live, i),
        Operation::Close => close_plan(live),
        Operation::Union(p, j) => union_plan(live, p, j),
        Operation::Start => Err(Refusal::NotAllowed),
    }
}

/// 16, or what would be done with the loops l, where u is the next unused number.
pub fn propose<M: LoopMemory>(m: &M, l: Loops, u: u16, o: Operation) -> Result<Action, Refusal>
    requires { Proposable (M.places m.now) l (M.numbers m.now) u }
    ensures { result ≡ proposed_at (M.places m.now) l (M.numbers m.now) u o }
{
    if l.live == 0 {
        return propose_rest(u, o);
    }
    let live = Live {
        memory: m,
        loops: l,
    };
    propose_edge(&live, u, o)
}

// 17: whether the counts after the plan are within those stated.
#[tactic(auto, unfolding(border_theory::specs::Memory::Decision::room_for))]
fn has_room(n: usize, s: Front, p: Plan) -> bool
    requires { (s.loops.free ≤ n) × (n ≤ max_places) }
    ensures { result ≡ room_for n s p }
{
    let c = s.stated;
    let new_edges = usize::from(p.pq) + usize::from(p.qr) + usize::from(p.rp);
    let places = n - usize::from(s.loops.free) + 2 * new_edges;
    let loops = usize::from(s.loops.live) + new_edges + 2 * usize::from(p.starts);
    usize::from(s.used) + usize::from(p.vertices) <= usize::from(c.vertices)
        && usize::from(s.built) + 1 <= usize::from(c.triangles)
        && places <= usize::from(c.places) + 3
        && loops <= usize::from(c.loops) + usize::from(p.vertices) + 1 + 2 * usize::from(p.unions)
}

/// 17, if what is proposed has no room.
pub fn test_room(n: usize, s: Front, d: Result<Action, Refusal>) -> Result<Action, Refusal>
    requires { (s.loops.free ≤ n) × (n ≤ max_places) }
    ensures { result ≡ decided_by n s d }
{
    let action = d?;
    if let Action::Builds(p) = action {
        if !has_room(n, s, p) {
            return Err(Refusal::ExceedsStated);
        }
    }
    Ok(action)
}
