// The eight operations on the linked places of a memory. Each is given what it needs: it is decided before.
// `Near` stays in `requires`: no type keeps it, since an operation breaks it off and on, and `Live` only lends what is read.
// `forward` and `backward`, and `leave_next` and `leave_current`, stay two: they read other neighbours, another place leaves, and only the
// backward ones move the current place. With a parameter each line would be a branch; Memory/Moves has both, as the rules' table has.
ghost use Rattle.std.specs.Prelude.{◌≡◌, ◌+◌, ◌*◌, ◌-◌, ◌≤◌, ◌<◌, length};
ghost use Rattle.rules.specs.Limits.{max_vertices};
ghost use Rattle.border_theory.specs.Memory.Moves.{new_held, forward_held, backward_held, ended_held, turned_held, next_cut, last_cut};
ghost use Rattle.border_theory.specs.Memory.Moves.{marked_held};
ghost use Rattle.border_theory.specs.Memory.Moves.{doubled, split_held, union_held, start_held};
ghost use Rattle.border_theory.specs.Memory.Near.{Near, Borders, Doubles, Starts};

use crate::live::Live;
use crate::walks::{move_down, release};
use cells::{LoopMemory, LoopMemoryMut};
use cutborder::Loops;

/// New: a free place goes between the current place and the next. It gets vertex u and is current.
#[tactic(auto, unfolding(border_theory::specs::Memory::Moves::new_held, border_theory::specs::Memory::Layout::edges_stored))]
pub fn new_vertex<M: LoopMemoryMut>(m: &mut M, l: Loops, u: u16) -> Loops
    requires { Near (M.places m.old) l (M.numbers m.old) × (1 ≤ l.free) × (u < M.vertex_end) }
    ensures loops { result ≡ (new_held (M.places m.old) l (M.numbers m.old) u).loops }
    ensures memory { M.numbers m.new ≡ (new_held (M.places m.old) l (M.numbers m.old) u).memory }
    ensures kept { (M.places m.new ≡ M.places m.old) × (M.records m.new ≡ M.records m.old)
        × (M.lender m.new ≡ M.lender m.old) }
{
    let live = Live {
        memory: &*m,
        loops: l,
    };
    let e = live.current();
    let f = live.next();
    let q = m.free_at(l.free, 1);
    m.set_vertex(q, u);
    m.store_edge(q, f, 1);
    m.store_edge(e, q, 1);
    Loops {
        current: q,
        size: l.size + 1,
        free: l.free - 1,
        ..l
    }
}

/// Forward: the place after the current one leaves.
#[tactic(auto, unfolding(border_theory::specs::Memory::Moves::forward_held, border_theory::specs::Memory::Layout::edges_stored))]
pub fn forward<M: LoopMemoryMut>(m: &mut M, l: Loops) -> Loops
    requires { Near (M.places m.old) l (M.numbers m.old) }
    ensures loops { result ≡ (forward_held (M.places m.old) l (M.numbers m.old)).loops }
    ensures memory { M.numbers m.new ≡ (forward_held (M.places m.old) l (M.numbers m.old)).memory }
    ensures kept { (M.places m.new ≡ M.places m.old) × (M.records m.new ≡ M.records m.old)
        × (M.lender m.new ≡ M.lender m.old) }
{
    let live = Live {
        memory: &*m,
        loops: l,
    };
    let e = live.current();
    let f = live.next();
    let g = live.second();
    m.store_edge(e, g, 1);
    m.free_place(l.free, f);
    Loops {
        size: l.size - 1,
        free: l.free + 1,
        ..l
    }
}

/// Backward: the current place leaves, and the one before it is current.
#[tactic(auto, unfolding(border_theory::specs::Memory::Moves::backward_held, border_theory::specs::Memory::Layout::edges_stored))]
pub fn backward<M: LoopMemoryMut>(m: &mut M, l: Loops) -> Loops
    requires { Near (M.places m.old) l (M.numbers m.old) }
    ensures loops { result ≡ (backward_held (M.places m.old) l (M.numbers m.old)).loops }
    ensures memory { M.numbers m.new ≡ (backward_held (M.places m.old) l (M.numbers m.old)).memory }
    ensures kept { (M.places m.new ≡ M.places m.old) × (M.records m.new ≡ M.records m.old)
        × (M.lender m.new ≡ M.lender m.old) }
{
    let live = Live {
        memory: &*m,
        loops: l,
    };
    let e = live.current();
    let f = live.next();
    let c = live.last();
    m.store_edge(c, f, 1);
    m.free_place(l.free, e);
    Loops {
        current: c,
        size: l.size - 1,
        free: l.free + 1,
        ..l
    }
}

/// The current loop ends: its places are freed, and the latest waiting loop goes on.
#[tactic(auto, unfolding(border_theory::specs::Memory::Moves::ended_held))]
pub fn close<M: LoopMemoryMut>(m: &mut M, l: Loops) -> Loops
    requires { Near (M.places m.old) l (M.numbers m.old) }
    ensures loops { result ≡ (ended_held (M.places m.old) l (M.numbers m.old)).loops }
    ensures memory { M.numbers m.new ≡ (ended_held (M.places m.old) l (M.numbers m.old)).memory }
    ensures kept { (M.places m.new ≡ M.places m.old) × (M.records m.new ≡ M.records m.old)
        × (M.lender m.new ≡ M.lender m.old) }
{
    if l.live <= 1 {
        release(m, l.free, l.size, l.current);
        return Loops {
            live: 0,
            current: 0,
            size: 0,
            free: l.free + l.size,
        };
    }
    let p = m.place_at(l.live - 2);
    let k = m.size_at(l.live - 2);
    release(m, l.free, l.size, l.current);
    Loops {
        live: l.live - 1,
        current: p,
        size: k,
        free: l.free + l.size,
    }
}

// The place c gets a second one, between the place before it and the one after the current one; the current edge leads to c.
#[tactic(auto, unfolding(border_theory::specs::Memory::Moves::doubled))]
pub fn double<M: LoopMemoryMut>(m: &mut M, l: Loops, c: u16)
    requires { Near (M.places m.old) l (M.numbers m.old) × Doubles (M.places m.old) l (M.numbers m.old) c }
    ensures value { M.numbers m.new ≡ doubled (M.places m.old) l (M.numbers m.old) c }
    ensures long { length (M.numbers m.new) ≡ length (M.numbers m.old) }
    ensures kept { (M.places m.new ≡ M.places m.old) × (M.records m.new ≡ M.records m.old)
        × (M.lender m.new ≡ M.lender m.old) }
{
    let live = Live {
        memory: &*m,
        loops: l,
    };
    let e = live.current();
    let f = live.next();
    let q = m.free_at(l.free, 1);
    let b = m.before_of(c);
    let o = m.open_of(b);
    let v = m.vertex_of(c);
    m.set_vertex(q, v);
    m.store_edge(e, c, 1);
    m.store_edge(b, q, o);
    m.store_edge(q, f, 1);
}

// The place after the current one leaves if its edge is marked, as the current edge will be.
#[tactic(auto, unfolding(border_theory::specs::Memory::Moves::next_cut))]
fn leave_next<M: LoopMemoryMut>(m: &mut M, l: Loops) -> Loops
    requires { Near (M.places m.old) l (M.numbers m.old) }
    ensures loops { result ≡ (next_cut (M.places m.old) l (M.numbers m.old)).loops }
    ensures memory { M.numbers m.new ≡ (next_cut (M.places m.old) l (M.numbers m.old)).memory }
    ensures kept { (M.places m.new ≡ M.places m.old) × (M.records m.new ≡ M.records m.old)
        × (M.lender m.new ≡ M.lender m.old) }
{
    let f = Live {
        memory: &*m,
        loops: l,
    }
    .next();
    if m.open_of(f) == 0 {
        return forward(m, l);
    }
    l
}

// The current place leaves if the edge before it is marked, as the current edge will be.
#[tactic(auto, unfolding(border_theory::specs::Memory::Moves::last_cut))]
fn leave_current<M: LoopMemoryMut>(m: &mut M, l: Loops) -> Loops
    requires { Near (M.places m.old) l (M.numbers m.old) }
    ensures loops { result ≡ (last_cut (M.places m.old) l (M.numbers m.old)).loops }
    ensures memory { M.numbers m.new ≡ (last_cut (M.places m.old) l (M.numbers m.old)).memory }
    ensures kept { (M.places m.new ≡ M.places m.old) × (M.records m.new ≡ M.records m.old)
        × (M.lender m.new ≡ M.lender m.old) }
{
    let c = Live {
        memory: &*m,
        loops: l,
    }
    .last();
    if m.open_of(c) == 0 {
        return backward(m, l);
    }
    l
}

/// Border: up to two places leave, then the current edge is marked.
#[tactic(auto, unfolding(border_theory::specs::Memory::Moves::marked_held))]
pub fn mark_border<M: LoopMemoryMut>(m: &mut M, l: Loops) -> Loops
    requires { Borders (M.places m.old) l (M.numbers m.old) }
    ensures loops { result ≡ (marked_held (M.places m.old) l (M.numbers m.old)).loops }
    ensures memory { M.numbers m.new ≡ (marked_held (M.places m.old) l (M.numbers m.old)).memory }
    ensures kept { (M.places m.new ≡ M.places m.old) × (M.records m.new ≡ M.records m.old)
        × (M.lender m.new ≡ M.lender m.old) }
{
    let a = leave_next(m, l);
    let b = leave_current(m, a);
    mark_edge(m, b)
}

// The current edge is marked. The next one is open and becomes current; where it is not, the loop has one place left, and ends.
#[tactic(auto, unfolding(border_theory::specs::Memory::Moves::turned_held, border_theory::specs::Memory::Layout::edges_stored))]
fn mark_edge<M: LoopMemoryMut>(m: &mut M, l: Loops) -> Loops
    requires { Near (M.places m.old) l (M.numbers m.old) }
    ensures loops { result ≡ (turned_held (M.places m.old) l (M.numbers m.old)).loops }
    ensures memory { M.numbers m.new ≡ (turned_held (M.places m.old) l (M.numbers m.old)).memory }
    ensures kept { (M.places m.new ≡ M.places m.old) × (M.records m.new ≡ M.records m.old)
        × (M.lender m.new ≡ M.lender m.old) }
{
    let live = Live {
        memory: &*m,
        loops: l,
    };
    let e = live.current();
    let f = live.next();
    m.store_edge(e, f, 0);
    if m.open_of(f) == 0 {
        return close(m, l);
    }
    Loops { current: f, ..l }
}

/// Split: the loop falls in two, of i + 1 places and of the others. The shorter goes on; the other waits.
#[tactic(auto, unfolding(border_theory::specs::Memory::Moves::split_held))]
pub fn split<M: LoopMemoryMut>(m: &mut M, l: Loops, i: u16, c: u16) -> Loops
    requires near { Near (M.places m.old) l (M.numbers m.old) × Doubles (M.places m.old) l (M.numbers m.old) c }
    requires i_bound { (i + 2 ≤ l.size) × (l.live < 65535) × (5 * M.places m.old + 2 * (l.live + 1) ≤ length (M.numbers m.old)) }
    ensures loops { result ≡ (split_held (M.places m.old) l (M.numbers m.old) i c).loops }
    ensures memory { M.numbers m.new ≡ (split_held (M.places m.old) l (M.numbers m.old) i c).memory }
    ensures kept { (M.places m.new ≡ M.places m.old) × (M.records m.new ≡ M.records m.old)
        × (M.lender m.new ≡ M.lender m.old) }
{
    let e = Live {
        memory: &*m,
        loops: l,
    }
    .current();
    let q = m.free_at(l.free, 1);
    let rest = l.size - i;
    double(m, l, c);
    if i + 1 <= rest {
        m.wait_at(l.live - 1, e, rest);
        return Loops {
            live: l.live + 1,
            current: q,
            size: i + 1,
            free: l.free - 1,
        };
    }
    m.wait_at(l.live - 1, q, i + 1);
    Loops {
        live: l.live + 1,
        size: rest,
        free: l.free - 1,
        ..l
    }
}

/// Union: waiting loop p, joined at its place c, becomes part of the current one.
#[tactic(auto, unfolding(border_theory::specs::Memory::Moves::union_held))]
pub fn union<M: LoopMemoryMut>(m: &mut M, l: Loops, p: u16, c: u16) -> Loops
    requires near { Near (M.places m.old) l (M.numbers m.old) × Doubles (M.places m.old) l (M.numbers m.old) c }
    requires le_p { (1 ≤ p) × (p + 1 ≤ l.live) }
    ensures loops { result ≡ (union_held (M.places m.old) l (M.numbers m.old) p c).loops }
    ensures memory { M.numbers m.new ≡ (union_held (M.places m.old) l (M.numbers m.old) p c).memory }
    ensures kept { (M.places m.new ≡ M.places m.old) × (M.records m.new ≡ M.records m.old)
        × (M.lender m.new ≡ M.lender m.old) }
{
    let w = l.live - 1 - p;
    let q = m.free_at(l.free, 1);
    let z = m.size_at(w);
    double(m, l, c);
    move_down(m, w, p - 1);
    Loops {
        live: l.live - 1,
        current: q,
        size: l.size + 1 + z,
        free: l.free - 1,
    }
}

/// Start: a loop of three free places, with the vertices u, u + 1 and u + 2.
#[tactic(auto, unfolding(border_theory::specs::Memory::Moves::start_held, border_theory::specs::Memory::Layout::edges_stored))]
pub fn start<M: LoopMemoryMut>(m: &mut M, l: Loops, u: u16) -> Loops
    requires { Starts (M.places m.old) l (M.numbers m.old) × (u ≤ max_vertices) }
    ensures loops { result ≡ (start_held (M.places m.old) l (M.numbers m.old) u).loops }
    ensures memory { M.numbers m.new ≡ (start_held (M.places m.old) l (M.numbers m.old) u).memory }
    ensures kept { (M.places m.new ≡ M.places m.old) × (M.records m.new ≡ M.records m.old)
        × (M.lender m.new ≡ M.lender m.old) }
{
    let a = m.free_at(l.free, 1);
    let b = m.free_at(l.free, 2);
    let c = m.free_at(l.free, 3);
    m.set_vertex(a, u);
    m.set_vertex(b, u + 1);
    m.set_vertex(c, u + 2);
    m.store_edge(c, a, 1);
    m.store_edge(b, c, 1);
    m.store_edge(a, b, 1);
    Loops {
        live: 1,
        current: a,
        size: 3,
        free: l.free - 3,
    }
}
