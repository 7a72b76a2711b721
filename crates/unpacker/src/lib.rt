// Unpacking: a pack's operations are run on the cut-border, and the model is tested. What the contracts cite stands in
// unpack_theory/specs/.
#![tactic(auto)]

mod common; // deciding and doing, new and forward at hand
mod conclude; // 19, 20, and the answer
mod meet; // the vertices that are met
mod rule; // the edge rule
pub mod step; // one operation, and the run of them

ghost use Rattle.std.specs.Prelude.{◌≡◌, ◌*◌};
ghost use Rattle.rules.specs.Unpacked.{unpacked_of};
ghost use Rattle.unpack_theory.specs.Runs.{tidied};
ghost use Rattle.unpack_theory.specs.Lent.{UnpackedOn, Fitting, RunGives, cleared_by};

use crate::conclude::conclude;
use crate::step::run;
use border::begin;
use cutborder::{CORE, PLACES};
use rules::refusal::Refusal;
use rules::{CORNERS, Counts, Model, VERTICES};
use wire::fields::{fields_of, is_long_enough};

// Builds and tests the model of operations that got past 14; the triangles of one that is refused are left in the buffer.
fn build_model(
    ops: &[u8],
    stated: Counts,
    triangles: &mut [u16],
    m: &mut [u16; CORE],
) -> Result<Model, Refusal>
    requires { Fitting stated ops.now triangles.old m.old }
    ensures { RunGives stated ops.now triangles.old (unpacked_of result)
        (tidied (unpacked_of result) (3 * stated.triangles) triangles.new) }
{
    let mut chains = [0u16; VERTICES + CORNERS];
    let mut met = [0u16; VERTICES];
    let start = begin(m, stated);
    let budget = 8 * ops.len() + 1;
    let (s, at) = run(ops, start, budget, triangles, m, &mut chains, &mut met)?;
    conclude(ops, at, s, triangles, &chains, &met)
}

// Unpacks operations that got past 14: after a refusal the triangles stated are zero.
fn unpack_operations(
    ops: &[u8],
    stated: Counts,
    triangles: &mut [u16],
    m: &mut [u16; CORE],
) -> Result<Model, Refusal>
    requires { Fitting stated ops.now triangles.old m.old }
    ensures { RunGives stated ops.now triangles.old (unpacked_of result) triangles.new }
{
    let answer = build_model(ops, stated, &mut *triangles, m);
    if answer.is_err() {
        triangles[..3 * usize::from(stated.triangles)].fill(0);
    }
    answer
}

// Unpacks any bytes into any triangle buffer, where n place records were lent: of these only the number counts, for the unpacking
// works in a memory of its own. Before 14 nothing changes.
pub fn unpack_on(pack: &[u8], triangles: &mut [u16], n: usize) -> Result<Model, Refusal>
    ensures { UnpackedOn pack.now triangles.old n (unpacked_of result) triangles.new }
{
    let fields = fields_of(pack)?;
    if !is_long_enough(fields.stated, triangles.len(), n) {
        return Err(Refusal::UnpackingRoom);
    }
    let mut m = [0u16; CORE];
    unpack_operations(fields.operations, fields.stated, triangles, &mut m)
}

// How many place records an unpacking clears, read off its answer: none after 12 to 14, and past 14 the first 1,024.
pub fn cleared(r: &Result<Model, Refusal>) -> usize
    ensures { result ≡ cleared_by (unpacked_of r.now) }
{
    match r {
        // By number: so does `cleared_by` of unpack_theory, which the clause names.
        Err(e) if e.number() <= 14 => 0,
        _ => PLACES,
    }
}
