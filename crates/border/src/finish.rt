// The end of a building: whether the model is complete, 19's test of its counts, and the four numbers.
ghost use Rattle.std.specs.Prelude.{◌≡◌, pos, ◌+ℤ◌, ◌-ℤ◌};
ghost use Rattle.border_theory.specs.Memory.Finish.{is_complete, is_as_stated, totals_of};

use cutborder::Front;
use rules::Totals;

/// Whether the model is complete: T triangles are built, and no loop is live.
pub fn is_complete(f: Front) -> bool
    ensures { result ≡ is_complete f }
{
    f.built == f.stated.triangles && f.loops.live == 0
}

/// 19: whether the vertices and both peaks are those stated.
pub fn is_as_stated(f: Front) -> bool
    ensures { result ≡ is_as_stated f }
{
    f.used == f.stated.vertices
        && f.peaks.places == f.stated.places
        && f.peaks.loops == f.stated.loops
}

// The Euler number: vertices minus edges plus triangles, which falls below zero with handles.
fn euler(v: u16, e: u16, t: u16) -> i32
    ensures { result ≡ pos v -ℤ pos e +ℤ pos t }
{
    i32::from(v) - i32::from(e) + i32::from(t)
}

/// Edges, rims, unions and the Euler number of a complete model.
#[tactic(auto, unfolding(border_theory::specs::Memory::Finish::totals_of))]
pub fn totals_of(f: Front) -> Totals
    ensures { result ≡ totals_of f }
{
    Totals {
        edges: f.edges,
        rims: f.rims,
        unions: f.unions,
        euler: euler(f.used, f.edges, f.built),
    }
}
