// The end of a run: 19 and 20, and the answer.
ghost use Rattle.std.specs.Prelude.{◌≡◌};
ghost use Rattle.rules.specs.Answer.{unpacked, unpacked_answer};
ghost use Rattle.rules.specs.Unpacked.{unpacked_of};
ghost use Rattle.unpack_theory.specs.Runs.{model_answer, Whole, Concludes};

use border::finish::{is_as_stated, totals_of};
use corners::Links;
use cutborder::Front;
use mesh::fans::{Met, met_fans};
use rules::Model;
use rules::refusal::Refusal;
use wire::reader::is_rest_zero;

// What an accepted unpacking answers.
fn model_of(s: Front) -> Model
    ensures { unpacked result ≡ model_answer s }
{
    Model {
        vertices: s.stated.vertices,
        triangles: s.stated.triangles,
        totals: totals_of(s),
    }
}

// 19, 20, or the answer for a complete model. 20 tests the vertices met: the others have one fan.
pub(crate) fn conclude(
    ops: &[u8],
    at: usize,
    s: Front,
    triangles: &[u16],
    chains: &Links,
    met: &Met,
) -> Result<Model, Refusal>
    requires { Whole s triangles.now chains.now met.now }
    ensures { Concludes ops.now at s triangles.now chains.now met.now (unpacked_answer (unpacked_of result)) }
{
    if !is_rest_zero(ops, at) || !is_as_stated(s) {
        return Err(Refusal::DiffersFromStated);
    }
    let n = 3 * usize::from(s.built);
    if !met_fans(&triangles[..n], chains, met, usize::from(s.used)) {
        return Err(Refusal::FansInModel);
    }
    Ok(model_of(s))
}
