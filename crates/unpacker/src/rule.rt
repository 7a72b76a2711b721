// The edge rule (18), by look-ups in the corner chains: a side that glues nothing joins two vertices that no triangle joins yet.
ghost use Rattle.std.specs.Prelude.{◌≡◌};
ghost use Rattle.unpack_theory.specs.Rule.{is_tested, SideIs, PlanIs, RuleIs};

use corners::{Links, is_unjoined};
use cutborder::Plan;
use mesh::is_distinct;
use rules::Operation;

// Whether a side x→y of a plan passes: it glues an edge (0), or joins what is not joined.
fn is_side(list: &[u16], chains: &Links, side: u16, x: u16, y: u16) -> bool
    ensures { SideIs list.now chains.now side x y result }
{
    side == 0 || is_unjoined(list, chains, x, y)
}

// Whether the edge rule holds of a plan.
fn is_plan(list: &[u16], chains: &Links, p: Plan) -> bool
    ensures { PlanIs list.now chains.now p result }
{
    let t = p.triangle;
    is_distinct(t.p, t.q, t.r)
        && is_side(list, chains, p.pq, t.p, t.q)
        && is_side(list, chains, p.qr, t.q, t.r)
        && is_side(list, chains, p.rp, t.r, t.p)
}

// Whether the rule can fail at an operation of this kind.
fn is_tested(o: Operation) -> bool
    ensures { result ≡ is_tested o }
{
    matches!(
        o,
        Operation::Forward | Operation::Backward | Operation::Split(_) | Operation::Union(_, _)
    )
}

// Whether the edge rule holds of the plan of an operation.
pub(crate) fn is_ruled(list: &[u16], chains: &Links, o: Operation, p: Plan) -> bool
    ensures { RuleIs list.now chains.now o p result }
{
    !is_tested(o) || is_plan(list, chains, p)
}
