// What each operation would do at the current edge of a live loop: 16, a plan, or the edge to be marked. Nothing is changed.
// Forward and backward stay two: they read other neighbours, and make another side new (the two tests of a split read other
// neighbours too, and compare i with another number). With a parameter each line would be a branch; Memory/Decision has both of each,
// as the rules' table has both operations.
ghost use Rattle.std.specs.Prelude.{◌≡◌, ◌+◌, ◌*◌, ◌-◌, ◌≤◌, ◌<◌};
ghost use Rattle.rules.specs.Limits.{max_vertices};
ghost use Rattle.border_theory.specs.Memory.Decision.{plan_at, is_three, beside_next, beside_last, new_plan, forward_plan, backward_plan};
ghost use Rattle.border_theory.specs.Memory.Decision.{border_plan, split_plan, close_plan, union_plan, start_plan};

use cells::LoopMemory;
use cutborder::{Action, Plan};
use rings::live::Live;
use rules::Triangle;
use rules::refusal::Refusal;

// The triangle b a c at the current edge, from a to b, and its numbers.
fn plan_at<M: LoopMemory>(
    live: &Live<'_, M>,
    c: u16,
    qr: u16,
    rp: u16,
    v: u16,
    k: u16,
    p: u16,
) -> Plan
    ensures { result ≡ plan_at live.now.loops (M.numbers live.now.memory.now) c qr rp v k p }
{
    let triangle = Triangle {
        p: live.memory.vertex_of(live.next()),
        q: live.memory.vertex_of(live.current()),
        r: c,
    };
    Plan {
        triangle,
        pq: 0,
        qr,
        rp,
        vertices: v,
        starts: 0,
        unions: k,
        place: p,
    }
}

/// New: c is the next unused number u, and both a→c and c→b are new edges.
#[tactic(auto, unfolding(border_theory::specs::Memory::Decision::new_plan))]
pub fn new_plan<M: LoopMemory>(live: &Live<'_, M>, u: u16) -> Result<Action, Refusal>
    ensures { result ≡ new_plan live.now.loops (M.numbers live.now.memory.now) u }
{
    Ok(Action::Builds(plan_at(live, u, 1, 1, 1, 0, 0)))
}

// Whether the current loop has three places, all edges open: then only close glues.
#[tactic(auto, unfolding(border_theory::specs::Memory::Decision::is_three))]
fn is_three<M: LoopMemory>(live: &Live<'_, M>) -> bool
    ensures { result ≡ is_three live.now.loops (M.numbers live.now.memory.now) }
{
    live.loops.size == 3 && live.memory.is_open(live.next()) && live.memory.is_open(live.second())
}

/// Forward, with three places or more, not all edges of three open, and the edge after b open: c is the vertex after b, and a→c is
/// a new edge.
#[tactic(auto, unfolding(border_theory::specs::Memory::Decision::forward_plan, border_theory::specs::Memory::Decision::allowed_if))]
pub fn forward_plan<M: LoopMemory>(live: &Live<'_, M>) -> Result<Action, Refusal>
    ensures { result ≡ forward_plan live.now.loops (M.numbers live.now.memory.now) }
{
    if 3 <= live.loops.size && live.memory.is_open(live.next()) && !is_three(live) {
        let v = live.memory.vertex_of(live.second());
        return Ok(Action::Builds(plan_at(live, v, 1, 0, 0, 0, 0)));
    }
    Err(Refusal::NotAllowed)
}

// Backward, with three places or more, not all edges of three open, and the edge into a open: c is the vertex before a, and c→b
// is a new edge.
#[tactic(auto, unfolding(border_theory::specs::Memory::Decision::backward_plan, border_theory::specs::Memory::Decision::allowed_if))]
pub(crate) fn backward_plan<M: LoopMemory>(live: &Live<'_, M>) -> Result<Action, Refusal>
    ensures { result ≡ backward_plan live.now.loops (M.numbers live.now.memory.now) }
{
    let c = live.last();
    if 3 <= live.loops.size && live.memory.is_open(c) && !is_three(live) {
        let v = live.memory.vertex_of(c);
        return Ok(Action::Builds(plan_at(live, v, 0, 1, 0, 0, 0)));
    }
    Err(Refusal::NotAllowed)
}

// Border: the edge from a to b is to be marked.
#[tactic(auto, unfolding(border_theory::specs::Memory::Decision::border_plan))]
pub(crate) fn border_plan<M: LoopMemory>(live: &Live<'_, M>) -> Result<Action, Refusal>
    ensures { result ≡ border_plan live.now.loops (M.numbers live.now.memory.now) }
{
    let a = live.memory.vertex_of(live.current());
    let b = live.memory.vertex_of(live.next());
    Ok(Action::Marks(a, b))
}

// Whether place i after b is beyond the edge after b, which is open.
#[tactic(auto, unfolding(border_theory::specs::Memory::Decision::beside_next))]
fn is_beside_next<M: LoopMemory>(live: &Live<'_, M>, i: u16) -> bool
    ensures { result ≡ beside_next live.now.loops (M.numbers live.now.memory.now) i }
{
    i == 1 && live.memory.is_open(live.next())
}

// Whether it is beyond the edge into a, which is open.
#[tactic(auto, unfolding(border_theory::specs::Memory::Decision::beside_last))]
fn is_beside_last<M: LoopMemory>(live: &Live<'_, M>, i: u16) -> bool
    ensures { result ≡ beside_last live.now.loops (M.numbers live.now.memory.now) i }
{
    usize::from(i) + 2 == usize::from(live.loops.size) && live.memory.is_open(live.last())
}

// Split i, with 1 ≤ i ≤ k − 2 of k places, c not beyond an open edge next to the current one: c is i places after b, and both its
// edges are new.
#[tactic(auto, unfolding(border_theory::specs::Memory::Decision::split_plan, border_theory::specs::Memory::Decision::allowed_if))]
pub(crate) fn split_plan<M: LoopMemory>(live: &Live<'_, M>, i: u16) -> Result<Action, Refusal>
    ensures { result ≡ split_plan live.now.loops (M.numbers live.now.memory.now) i }
{
    if 1 <= i
        && usize::from(i) + 2 <= usize::from(live.loops.size)
        && !is_beside_next(live, i)
        && !is_beside_last(live, i)
    {
        let c = live.along(i);
        let v = live.memory.vertex_of(c);
        return Ok(Action::Builds(plan_at(live, v, 1, 1, 0, 0, c)));
    }
    Err(Refusal::NotAllowed)
}

// Close, with three places and all edges open: c is the third, and no edge is new.
#[tactic(auto, unfolding(border_theory::specs::Memory::Decision::close_plan, border_theory::specs::Memory::Decision::allowed_if))]
pub(crate) fn close_plan<M: LoopMemory>(live: &Live<'_, M>) -> Result<Action, Refusal>
    ensures { result ≡ close_plan live.now.loops (M.numbers live.now.memory.now) }
{
    let c = live.second();
    if live.loops.size == 3 && live.memory.is_open(live.next()) && live.memory.is_open(c) {
        let v = live.memory.vertex_of(c);
        return Ok(Action::Builds(plan_at(live, v, 0, 0, 0, 0, 0)));
    }
    Err(Refusal::NotAllowed)
}

// Union p j, with waiting loop p there and j below its places: c is j places after the start of its current edge.
#[tactic(auto, unfolding(border_theory::specs::Memory::Decision::union_plan, border_theory::specs::Memory::Decision::allowed_if))]
pub(crate) fn union_plan<M: LoopMemory>(
    live: &Live<'_, M>,
    p: u16,
    j: u16,
) -> Result<Action, Refusal>
    ensures { result ≡ union_plan (M.places live.now.memory.now) live.now.loops (M.numbers live.now.memory.now) p j }
{
    let waiting = live.loops.live - 1;
    if 1 <= p && p <= waiting && j < live.waiting_size(waiting - p) {
        let c = live.waiting_place(waiting - p, j);
        let v = live.memory.vertex_of(c);
        return Ok(Action::Builds(plan_at(live, v, 1, 1, 0, 1, c)));
    }
    Err(Refusal::NotAllowed)
}

// Start: the triangle of the next three unused numbers, all of whose edges are new.
#[tactic(auto, unfolding(border_theory::specs::Memory::Decision::start_plan))]
pub(crate) fn start_plan(u: u16) -> Result<Action, Refusal>
    requires { u ≤ max_vertices }
    ensures { result ≡ start_plan u }
{
    let triangle = Triangle {
        p: u,
        q: u + 1,
        r: u + 2,
    };
    Ok(Action::Builds(Plan {
        triangle,
        pq: 1,
        qr: 1,
        rp: 1,
        vertices: 3,
        starts: 1,
        unions: 0,
        place: 0,
    }))
}
