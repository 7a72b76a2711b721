// The core's state, and its own numbers in the memory: the free places and the waiting loops.
ghost use Rattle.std.specs.Prelude.{◌≡◌, ◌≤◌, length};
ghost use Rattle.rules.specs.Limits.{max_loops};
ghost use Rattle.border_theory.specs.Records.Plain.{core_size};
ghost use Rattle.state_theory.specs.Opening.Front.{Freed, Waited, top_of, front_of};

use crate::marks::Flags;
use cutborder::{Front, Loops, PLACES, RECORDS, WAITING};
use rules::Builder;

// The places that are not marked go on the stack of free places, and their count is answered. A marked place is written over.
pub(crate) fn free_rest(flags: &Flags, m: &mut [u16]) -> u16
    requires { core_size ≤ length m.old }
    ensures { Freed flags.now m.old result m.new }
{
    let mut free = 0;
    // By number, as `FreedBelow` of state_theory counts: a place's number is what goes on the stack.
    for i in 0..PLACES {
        m[RECORDS + free] = i as u16;
        free += usize::from(flags[i] == 0);
    }
    free as u16
}

// The live loops are written as waiting ones, the oldest first; the current one, the last of them, does not count as waiting.
pub(crate) fn wait_loops(b: Builder, m: &mut [u16])
    requires { (b.live ≤ max_loops) × (core_size ≤ length m.old) }
    ensures { Waited b m.old b.live m.new }
{
    // By number, as `Waited` of state_theory counts: it is the place in two lists and in the memory.
    for w in 0..usize::from(b.live) {
        let at = WAITING + 2 * w;
        m[at] = b.current[w];
        m[at + 1] = b.sizes[w];
    }
}

// The current loop's number in such a row; 0 where no loop is live.
fn top_of(row: &[u16; Builder::MAX_LOOPS], live: u16) -> u16
    requires { live ≤ max_loops }
    ensures { result ≡ top_of row.now live }
{
    if live == 0 {
        0
    } else {
        row[usize::from(live) - 1]
    }
}

// The core's state, with so many free places. The fields are copied one by one: `Builder` and `Front` are two types, whose fields the
// definitions name.
pub(crate) fn front_of(b: Builder, free: u16) -> Front
    requires { b.live ≤ max_loops }
    ensures { result ≡ front_of b free }
{
    Front {
        stated: b.stated,
        used: b.used,
        built: b.built,
        peaks: b.peaks,
        edges: b.edges,
        starts: b.starts,
        unions: b.unions,
        rims: b.rims,
        loops: Loops {
            live: b.live,
            current: top_of(&b.current, b.live),
            size: top_of(&b.sizes, b.live),
            free,
        },
    }
}
