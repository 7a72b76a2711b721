// 5: no directed edge occurs twice. The corners of each vertex are gone through once, so that a list takes time by its length alone.
ghost use Rattle.std.specs.Prelude.{◌<◌, ◌≡◌, length};
ghost use Rattle.rules.specs.Limits.{max_vertices};
ghost use Rattle.rules.specs.Triangle.{triangles_of, edges_of};
ghost use Rattle.rules.specs.Check.{none_twice};
ghost use Rattle.mesh_theory.specs.Fans.Passing.{PassesFour};
ghost use Rattle.mesh_theory.specs.Chains.Linked.{Chains, Sound};
ghost use Rattle.mesh.specs.Stamps.{Stamped, LeavesOnce};

// `as usize` in `leaves_once`: with `usize::from` it was tried; its answer speaks of the number itself and did not check. `as u16` narrows
// what `PassesFour` bounds.
use corners::{Links, corner_after, corners_of};
use rules::VERTICES;

// The stamp of vertex y stands at y: 1 more than the vertex from which an edge to y was met last, or 0.
// (An array of numbers, 0 for none: `Stamped` of specs/Stamps speaks of it, and there is no heap.)
type Stamps = [u16; VERTICES];

// Whether no directed edge leaves v twice.
fn leaves_once(list: &[u16], chains: &Links, stamps: &mut Stamps, v: u16) -> bool
    requires sound { Sound list.now × Chains list.now (length list.now) chains.now }
    requires v_lt_max_vertices { (v < max_vertices) × Stamped stamps.old v }
    ensures { LeavesOnce list.now v result stamps.new }
{
    for c in corners_of(list, chains, v) {
        let y = list[corner_after(c)];
        if stamps[y as usize] == v + 1 {
            return false;
        }
        stamps[y as usize] = v + 1;
    }
    true
}

// Whether no directed edge of the list, whose vertices are below v, occurs twice. (Not inlined, as `fans` of the fans: else the stamps of
// the one and the notes of the other would lie on the stack at once.)
#[inline(never)]
pub fn all_once(list: &[u16], chains: &Links, v: usize) -> bool
    requires { PassesFour v list.now × Chains list.now (length list.now) chains.now }
    ensures { result ≡ none_twice (edges_of (triangles_of list.now)) }
{
    let mut stamps = [0u16; VERTICES];
    for u in 0..v {
        if !leaves_once(list, chains, &mut stamps, u as u16) {
            return false;
        }
    }
    true
}
