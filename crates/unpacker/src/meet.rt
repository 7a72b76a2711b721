// The vertices that a run has met: split and union meet the third corner of their triangle. Any other vertex has one fan, so 20 tests
// only those met.
ghost use Rattle.std.specs.Prelude.{◌≡◌, ◌<◌};
ghost use Rattle.rules.specs.Limits.{max_vertices};
ghost use Rattle.unpack_theory.specs.Met.{is_meeting, met_after};

use mesh::fans::Met;
use rules::Operation;

// Whether an operation of this kind meets the third corner of its triangle.
fn is_meeting(o: Operation) -> bool
    ensures { result ≡ is_meeting o }
{
    matches!(o, Operation::Split(_) | Operation::Union(_, _))
}

// Notes the third corner v of the triangle of an operation that meets it.
#[tactic(auto, unfolding(unpack_theory::specs::Met::met_after))]
pub(crate) fn meet(met: &mut Met, o: Operation, v: u16)
    requires { v < max_vertices }
    ensures { met.new ≡ met_after met.old o v }
{
    if is_meeting(o) {
        met[usize::from(v)] = 1;
    }
}
