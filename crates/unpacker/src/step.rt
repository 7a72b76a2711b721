// One operation of a pack, done, and the run of them until the model is complete. What it works on is passed part by part. `Held` holds
// between operations only, and the kit may require a ghost field at each write through a `&mut` beside it.
ghost use Rattle.std.specs.Prelude.{◌≡◌, ◌<◌, ℕ, length};
ghost use Rattle.cutborder.specs.declared.Action.TheVariants.{Builds};
ghost use Rattle.border_theory.specs.Memory.Decision.{decided};
ghost use Rattle.rules.specs.Limits.{max_places};
ghost use Rattle.unpack_theory.specs.Runs.{Held, Beyond, OperateOf, RunOf};
ghost use Rattle.unpack_theory.specs.Stepped.{stepped_of, stepped_to};

use crate::common::{alter, propose};
use crate::meet::meet;
use crate::rule::is_ruled;
use border::count::count_built;
use border::finish::is_complete;
use border::mark;
use border::triangles::put_triangle;
use border::verdict::test_room;
use cells::LoopMemoryMut;
use corners::{Links, link};
use cutborder::{Action, Front, PLACES, Plan};
use mesh::fans::Met;
use rules::Operation;
use rules::refusal::Refusal;
use wire::reader::OperationReader;

// Builds a planned triangle, unless the edge rule fails (18): into the buffer, the chains and the memory. A vertex that it meets is
// noted.
fn build_triangle<M: LoopMemoryMut>(
    o: Operation,
    s: Front,
    p: Plan,
    triangles: &mut [u16],
    m: &mut M,
    chains: &mut Links,
    met: &mut Met,
) -> Result<Front, Refusal>
    requires held { Held s triangles.old (M.numbers m.old) chains.old met.old
        × (decided max_places s (M.numbers m.old) o ≡ Ok (Builds p)) }
    requires places { M.places m.old ≡ max_places }
    ensures turn { (next : ℕ) → OperateOf o next s triangles.old (M.numbers m.old) chains.old met.old
        (stepped_to next result) triangles.new (M.numbers m.new) chains.new met.new }
    ensures beyond { Beyond s.stated triangles.old triangles.new }
    ensures kept { (M.places m.new ≡ M.places m.old) × (M.records m.new ≡ M.records m.old)
        × (M.lender m.new ≡ M.lender m.old) }
{
    if !is_ruled(triangles, chains, o, p) {
        return Err(Refusal::EdgeRule);
    }
    let t = p.triangle;
    let n = usize::from(s.built);
    put_triangle(triangles, n, t);
    link(chains, n, t.p, t.q, t.r);
    meet(met, o, t.r);
    let l = alter(m, s.loops, s.used, o, p.place);
    Ok(count_built(PLACES, s, p, l))
}

// Does the operation o: 16, 17, 18, or the state after it.
fn operate<M: LoopMemoryMut>(
    o: Operation,
    s: Front,
    triangles: &mut [u16],
    m: &mut M,
    chains: &mut Links,
    met: &mut Met,
) -> Result<Front, Refusal>
    requires held { Held s triangles.old (M.numbers m.old) chains.old met.old }
    requires places { M.places m.old ≡ max_places }
    ensures turn { (next : ℕ) → OperateOf o next s triangles.old (M.numbers m.old) chains.old met.old
        (stepped_to next result) triangles.new (M.numbers m.new) chains.new met.new }
    ensures beyond { Beyond s.stated triangles.old triangles.new }
    ensures kept { (M.places m.new ≡ M.places m.old) × (M.records m.new ≡ M.records m.old)
        × (M.lender m.new ≡ M.lender m.old) }
{
    let proposed = propose(m, s.loops, s.used, o);
    match test_room(PLACES, s, proposed)? {
        Action::Builds(p) => build_triangle(o, s, p, triangles, m, chains, met),
        Action::Marks(_, _) => Ok(mark(m, s)),
    }
}

// Operations from the first bit on until the model is complete, by at most `budget` of them: the state and the position then, or
// the refusal of the first at fault. One reader goes through them all.
pub fn run<M: LoopMemoryMut>(
    ops: &[u8],
    start: Front,
    budget: usize,
    triangles: &mut [u16],
    m: &mut M,
    chains: &mut Links,
    met: &mut Met,
) -> Result<(Front, usize), Refusal>
    requires held { Held start triangles.old (M.numbers m.old) chains.old met.old × (length ops.now < 65536) }
    requires places { M.places m.old ≡ max_places }
    ensures run { RunOf ops.now budget start triangles.old (M.numbers m.old) chains.old
        met.old (stepped_of result) triangles.new (M.numbers m.new) chains.new met.new }
    ensures beyond { Beyond start.stated triangles.old triangles.new }
    ensures kept { (M.places m.new ≡ M.places m.old) × (M.records m.new ≡ M.records m.old)
        × (M.lender m.new ≡ M.lender m.old) }
{
    let mut s = start;
    let mut r = OperationReader { bytes: ops, at: 0 };
    for _ in 0..budget {
        if is_complete(s) {
            return Ok((s, r.at));
        }
        let Some((o, next)) = r.read_operation() else {
            return Err(Refusal::EndsEarly);
        };
        s = operate(o, s, &mut *triangles, &mut *m, &mut *chains, &mut *met)?;
        r.at = next;
    }
    Err(Refusal::EndsEarly)
}
