// Packing: the packer chooses one operation after the other, does each on the cut-border, whose vertices are the list's own numbers,
// and writes it. What the contracts cite stands in pack_theory/specs/Packing/.
#![tactic(auto)]

mod choose; // what is taken at the current edge
mod finish; // 11, and the answer
mod operate; // an operation on the loops
mod start; // the lowest triangle left
pub mod step; // one step, and the run of them

ghost use Rattle.std.specs.Prelude.{List, ◌++◌, ◌≡◌, ℕ, ◌≤◌, length, replicate, drop};
ghost use Rattle.rules.specs.Checked.{checked_of};
ghost use Rattle.rules.specs.Packed.{packed_of};
ghost use Rattle.rules.specs.Limits.{max_places, max_triangles, max_vertices};
ghost use Rattle.mesh_theory.specs.Chains.Linked.{Chains};
ghost use Rattle.mesh_theory.specs.Chains.Checks.{Answers};
ghost use Rattle.border_theory.specs.Memory.Fresh.{all_free};
ghost use Rattle.pack_theory.specs.Packing.Numbers.{unnumbered};
ghost use Rattle.pack_theory.specs.Packing.Doing.{stated_for};
ghost use Rattle.pack_theory.specs.Packing.Order.{OrderLong};
ghost use Rattle.pack_theory.specs.Packing.Rooms.{rooms_checked};
ghost use Rattle.pack_theory.specs.Packing.Lent.{PackedOn, Fitting, empty_course, Begins, RunGives, cleared_by};

use crate::choose::UNNUMBERED;
use crate::finish::finish;
use crate::step::run;
use border::begin;
use corners::Links;
use cutborder::{CORE, Course, PLACES};
use mesh::check_into;
use rules::refusal::Refusal;
use rules::{Builder, CORNERS, Counts, TRIANGLES, VERTICES};

// What a packing of v vertices and k triangles may not exceed.
fn stated_for(v: usize, k: usize) -> Counts
    requires { (v ≤ max_vertices) × (k ≤ max_triangles) }
    ensures { result ≡ stated_for v k }
{
    Counts {
        vertices: v as u16,
        triangles: k as u16,
        places: Builder::MAX_PLACES as u16,
        loops: Builder::MAX_LOOPS as u16,
    }
}

// The packing of v vertices and k triangles begins: every place is free, and no vertex has a number.
fn begin_course(v: usize, k: usize, numbering: &mut [u16], m: &mut [u16; CORE]) -> Course
    requires { (v ≤ max_vertices) × (k ≤ max_triangles) × (v ≤ length numbering.old) }
    ensures course { result ≡ empty_course v k }
    ensures numbers { numbering.new ≡ replicate v unnumbered ++ drop v numbering.old }
    ensures memory { m.new ≡ all_free max_places m.old max_places }
{
    numbering[..v].fill(UNNUMBERED);
    let front = begin(m, stated_for(v, k));
    Course {
        front,
        given: 0,
        lowest: 0,
    }
}

// A packing that has begun runs to its end: the numbering and the pack are written. Past the first v the numbering stays as it is.
fn run_from(
    v: usize,
    list: &[u16],
    chains: &Links,
    start: Course,
    numbering: &mut [u16],
    buffer: &mut [u8],
    order: &mut [u16],
    m: &mut [u16; CORE],
) -> Result<u32, Refusal>
    requires { Begins v list.now chains.now start numbering.old m.old × OrderLong list.now order.old }
    ensures { (ns : List ℕ) → drop v numbering.old ≡ drop v ns
        → RunGives v list.now ns buffer.old order.old (packed_of result) numbering.new buffer.new
        order.new }
{
    let k = list.len() / 3;
    let mut built = [0u8; TRIANGLES];
    let budget = 4 * k + 1;
    let end = run(
        list, chains, start, budget, &mut built, order, numbering, buffer, m,
    );
    finish(v, k, end, numbering, buffer, order)
}

// Packs a list that got past 8 and 22.
fn pack_accepted(
    v: usize,
    list: &[u16],
    chains: &Links,
    numbering: &mut [u16],
    buffer: &mut [u8],
    order: &mut [u16],
    m: &mut [u16; CORE],
) -> Result<u32, Refusal>
    requires { Fitting v list.now chains.now numbering.old m.old × OrderLong list.now order.old }
    ensures { RunGives v list.now numbering.old buffer.old order.old (packed_of result)
        numbering.new buffer.new order.new }
{
    let start = begin_course(v, list.len() / 3, numbering, m);
    run_from(v, list, chains, start, numbering, buffer, order, m)
}

// The tests before the run: the first of 1 to 8 and 22 that packing the list meets, where the numbering and the order have so many
// entries and n place records were lent. Chains that held no triangle then hold those of a list that gets past them.
#[tactic(auto, using(crate::proofs::Rooms::rooms))]
pub fn test_rooms(
    v: usize,
    list: &[u16],
    numbering: usize,
    order: usize,
    n: usize,
    chains: &mut Links,
) -> Result<(), Refusal>
    requires { Chains list.now 0 chains.old }
    ensures { Answers (rooms_checked v list.now numbering order n) list.now (checked_of result) chains.new }
{
    check_into(v, list, chains)?;
    if numbering < v || n < PLACES {
        return Err(Refusal::PackingRoom);
    }
    if order < list.len() / 3 {
        return Err(Refusal::OrderRoom);
    }
    Ok(())
}

// Packs any list of a model of v vertices into any buffers, where n place records were lent: of these only the number counts, for the
// packing works in a memory of its own. After 1 to 8 and 22 nothing has changed.
pub fn pack_on(
    v: usize,
    list: &[u16],
    numbering: &mut [u16],
    buffer: &mut [u8],
    order: &mut [u16],
    n: usize,
) -> Result<u32, Refusal>
    ensures { PackedOn v list.now numbering.old buffer.old order.old n (packed_of result)
        numbering.new buffer.new order.new }
{
    let mut chains = [0u16; VERTICES + CORNERS];
    test_rooms(v, list, numbering.len(), order.len(), n, &mut chains)?;
    let mut m = [0u16; CORE];
    pack_accepted(v, list, &chains, numbering, buffer, order, &mut m)
}

// How many place records a packing clears, read off its answer: the first 1,024 after 9 to 11 and where it is accepted, else none.
pub fn cleared(r: &Result<u32, Refusal>) -> usize
    ensures { result ≡ cleared_by (packed_of r.now) }
{
    match r {
        Ok(_) | Err(Refusal::TooManyPlaces | Refusal::TooManyLoops | Refusal::PackTooLong) =>
            PLACES,
        Err(_) => 0,
    }
}
