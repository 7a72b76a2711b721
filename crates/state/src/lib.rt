// A builder's state and the core's. The way there is refusal 21: whether a building can go on with a state and the buffers that it is
// lent. The way back gives the core's state and its plain memory as a builder's state. The contracts cite rules/specs/Sound.antt and
// state_theory/specs/.
#![tactic(auto)]

mod counts; // the counts, the sums, the triangles' numbers
mod front; // the core's state and the numbers of its own in the memory
mod marks; // the loops, walked place by place

ghost use Rattle.std.specs.Prelude.{ℕ, ◌+◌, ◌≤◌, ◌<◌, ◌≡◌};
ghost use Rattle.rules.specs.Limits.{max_loops, max_places};
ghost use Rattle.border_theory.specs.Memory.Layout.{open_of};
ghost use Rattle.state_theory.specs.Reading.Closing.{waiting_at, waiting_row, live_row, builder_of};
ghost use Rattle.state_theory.specs.Reading.Opens.{Opens};

use crate::counts::numbers_fit;
use crate::front::{free_rest, front_of, wait_loops};
use crate::marks::mark_loops;
use cutborder::{Front, Memory, PLACES, WAITING};
use rules::Builder;
use rules::refusal::Refusal;

// Tests 21 on a state, a triangle buffer and the n place records that m has. Of a state that passes it makes the core's, and writes
// the free places and the waiting loops past the records, which stay as they were.
pub fn open(b: Builder, triangles: &[u16], m: &mut Memory, n: usize) -> Result<Front, Refusal>
    requires { (n ≤ max_places) × ((p : ℕ) → p < max_places → open_of m.old p ≤ 1) }
    ensures { Opens b triangles.now n m.old result m.new }
{
    if !numbers_fit(b, triangles, n) {
        return Err(Refusal::UnsoundState);
    }
    let mut flags = [0u8; PLACES];
    if !mark_loops(b, m, &mut flags) {
        return Err(Refusal::UnsoundState);
    }
    let free = free_rest(&flags, m);
    wait_loops(b, m);
    Ok(front_of(b, free))
}

// A number of each of the first k waiting loops, the first loop's at a.
#[tactic(auto, unfolding(state_theory::specs::Reading::Closing::waiting_row))]
fn waiting_row(m: &Memory, a: usize, k: usize) -> [u16; Builder::MAX_LOOPS]
    requires { (a ≤ waiting_at + 1) × (k ≤ max_loops) }
    ensures { result ≡ waiting_row m.now a k }
{
    let mut row = [0u16; Builder::MAX_LOOPS];
    // By number, as `waiting_row` of state_theory counts: every second number of the memory, from a on.
    for w in 0..k {
        row[w] = m[a + 2 * w];
    }
    row
}

// The same of all live loops: the current one, whose number is x, comes last.
#[tactic(auto, unfolding(state_theory::specs::Reading::Closing::live_row))]
fn live_row(m: &Memory, a: usize, live: u16, x: u16) -> [u16; Builder::MAX_LOOPS]
    requires { (a ≤ waiting_at + 1) × (live ≤ max_loops) }
    ensures { result ≡ live_row m.now a live x }
{
    if live == 0 {
        return [0u16; Builder::MAX_LOOPS];
    }
    let last = usize::from(live) - 1;
    let mut row = waiting_row(m, a, last);
    row[last] = x;
    row
}

// The builder's state: the fields of `Front` one by one, as in `front_of`.
#[tactic(auto, unfolding(state_theory::specs::Reading::Closing::builder_of))]
pub fn close(f: Front, m: &Memory) -> Builder
    requires { f.loops.live ≤ max_loops }
    ensures { result ≡ builder_of f m.now }
{
    let l = f.loops;
    Builder {
        stated: f.stated,
        used: f.used,
        built: f.built,
        peaks: f.peaks,
        edges: f.edges,
        starts: f.starts,
        unions: f.unions,
        rims: f.rims,
        live: l.live,
        current: live_row(m, WAITING, l.live, l.current),
        sizes: live_row(m, WAITING + 1, l.live, l.size),
    }
}
