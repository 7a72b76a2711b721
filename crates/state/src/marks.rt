// The loops of a builder's state, walked place by place: each place is marked, and none twice.
ghost use Rattle.std.specs.Prelude.{◌≡◌, ◌≤◌};
ghost use Rattle.rules.specs.Limits.{max_places, max_loops};
ghost use Rattle.rules.specs.View.{place_at};
ghost use Rattle.rules.specs.Sound.{place_fits};
ghost use Rattle.border_theory.specs.Records.Plain.{records};
ghost use Rattle.state_theory.specs.Opening.Marks.{MarksPlace, MarksWalk, MarksLoop, MarksLoops};

use cutborder::{Memory, PLACES};
use places::{FREE, record_at};
use rules::{Builder, Place};

// For each place whether it is marked (1) or not (0): numbers, as the definitions have them.
pub type Flags = [u8; PLACES];

// The record of place i; of none that there is, a free one.
fn place_at(m: &Memory, i: u16) -> Place
    ensures { result ≡ place_at (records max_places m.now) i }
{
    // `as`, here and below: tried with usize::from, the proof did not close: the answers speak of the number itself.
    if PLACES <= i as usize {
        return FREE;
    }
    record_at(m, i as usize)
}

// Whether the link back from the next place agrees, the vertex of place i is below v, and the next place has an open edge.
fn place_fits(m: &Memory, v: u16, i: u16) -> bool
    ensures { result ≡ place_fits (records max_places m.now) v i }
{
    let here = place_at(m, i);
    let next = place_at(m, here.after);
    next.before == i && here.vertex < v && (here.open || next.open)
}

// Marks place i, unless there is no such place, it is marked already, or it does not fit.
// A bool beside the flags and no `Result`: `MarksPlace` of state_theory says `markable`, and all that fails is 21.
#[tactic(auto, unfolding(state_theory::specs::Opening::Marks::markable))]
fn mark_place(m: &Memory, v: u16, i: u16, flags: &mut Flags) -> bool
    ensures { MarksPlace m.now v i flags.old result flags.new }
{
    let fits = usize::from(i) < PLACES && flags[usize::from(i)] == 0 && place_fits(m, v, i);
    if fits {
        flags[usize::from(i)] = 1;
    }
    fits
}

// Marks k places from e on, and says whether the last of them leads back to e.
// A bool, as there: `MarksWalk` says `returns`.
fn mark_walk(m: &Memory, v: u16, k: u16, e: u16, flags: &mut Flags) -> bool
    ensures { MarksWalk m.now v k e flags.old result flags.new }
{
    let mut at = e;
    for _ in 0..k {
        if !mark_place(m, v, at, flags) {
            return false;
        }
        at = place_at(m, at).after;
    }
    at == e
}

// Marks a loop of k places whose current edge starts at place e: it has a place, this edge is open, and it returns.
// A bool, as there: `MarksLoop` says `loop_marks`.
#[tactic(auto, unfolding(state_theory::specs::Opening::Marks::loop_marks))]
fn mark_loop(m: &Memory, v: u16, k: u16, e: u16, flags: &mut Flags) -> bool
    ensures { MarksLoop m.now v k e flags.old result flags.new }
{
    1 <= k && place_at(m, e).open && mark_walk(m, v, k, e, flags)
}

// Marks all live loops.
// A bool, as there: `MarksLoops` says `loops_mark`; `open` makes 21 of it.
pub(crate) fn mark_loops(b: Builder, m: &Memory, flags: &mut Flags) -> bool
    requires { b.live ≤ max_loops }
    ensures { MarksLoops b m.now b.live flags.old result flags.new }
{
    // By number, as `loops_mark` of state_theory counts: the last loop first, its size and its place by the same number.
    for w in (0..usize::from(b.live)).rev() {
        if !mark_loop(m, b.used, b.sizes[w], b.current[w], flags) {
            return false;
        }
    }
    true
}
