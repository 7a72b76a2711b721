// The counts after an operation. Both peaks are taken after it. `as u16` narrows what the clause `n ≤ max_places` of `raise` bounds:
// `try_from` would be no plainer.
ghost use Rattle.std.specs.Prelude.{◌≡◌, ◌+◌, ◌≤◌};
ghost use Rattle.rules.specs.Limits.{max_numbers, max_places};
ghost use Rattle.border_theory.specs.Memory.Decision.{raised, built_front, marked_front};
ghost use Rattle.border_theory.specs.Memory.Performs.{Counts16};

use cutborder::{Front, Loops, Plan};
use rules::Peaks;

// The most places and loops so far, those of l included.
fn raise(n: usize, k: Peaks, l: Loops) -> Peaks
    requires { (n ≤ max_places) × (l.free ≤ n) }
    ensures { result ≡ raised n k l }
{
    let taken = n - usize::from(l.free);
    Peaks {
        places: k.places.max(taken as u16),
        loops: k.loops.max(l.live),
    }
}

/// The counts after a triangle is built.
#[tactic(auto, unfolding(border_theory::specs::Memory::Decision::built_front))]
pub fn count_built(n: usize, s: Front, p: Plan, l: Loops) -> Front
    requires { Counts16 n s p l }
    ensures { result ≡ built_front n s p l }
{
    Front {
        used: s.used + p.vertices,
        built: s.built + 1,
        peaks: raise(n, s.peaks, l),
        edges: s.edges + (p.pq + p.qr + p.rp),
        starts: s.starts + p.starts,
        unions: s.unions + p.unions,
        loops: l,
        ..s
    }
}

/// The counts after an edge is marked: a loop that has ended is a rim.
#[tactic(auto, unfolding(border_theory::specs::Memory::Decision::marked_front))]
pub fn count_marked(n: usize, s: Front, l: Loops) -> Front
    requires { (n ≤ max_places) × (l.free ≤ n) × (l.live ≤ s.loops.live) × (s.loops.live ≤ l.live + 1) × (s.rims ≤ max_numbers) }
    ensures { result ≡ marked_front n s l }
{
    Front {
        peaks: raise(n, s.peaks, l),
        rims: s.rims + (s.loops.live - l.live),
        loops: l,
        ..s
    }
}
