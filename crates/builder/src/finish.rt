// The finish of a building: 21, 15, 19, 20, or the four numbers.
ghost use Rattle.std.specs.Prelude.{ℕ, ◌≤◌, ◌<◌};
ghost use Rattle.rules.specs.Limits.{max_places};
ghost use Rattle.rules.specs.Finished.{finished_of};
ghost use Rattle.border_theory.specs.Memory.Layout.{open_of};
ghost use Rattle.state_theory.specs.Finishing.Core.{Fits, FinishesFront, FinishesOn};

use crate::fan::one_fan_each;
use border::finish::{is_as_stated, is_complete, totals_of};
use cutborder::{Front, Memory};
use rules::refusal::Refusal;
use rules::{Builder, Totals};
use state::open;

// The finish of a core's state, whose triangles stand in the buffer.
fn finish_front(f: Front, triangles: &[u16]) -> Result<Totals, Refusal>
    requires { Fits f triangles.now }
    ensures { FinishesFront f triangles.now (finished_of result) }
{
    if !is_complete(f) {
        return Err(Refusal::EndsEarly);
    }
    if !is_as_stated(f) {
        return Err(Refusal::DiffersFromStated);
    }
    // `as`: tried with usize::from, the proof did not close: the answers speak of the number itself.
    if !one_fan_each(triangles, f.built as usize, f.used) {
        return Err(Refusal::FansInModel);
    }
    Ok(totals_of(f))
}

// Finishes a building, of any state and any triangle buffer, with n place records that were lent: m has the first 1,024 of them as
// numbers, and room after them to work in. It changes no record.
pub fn finish_on(b: Builder, triangles: &[u16], m: &mut Memory, n: usize) -> Result<Totals, Refusal>
    requires { (n ≤ max_places) × ((p : ℕ) → p < max_places → open_of m.old p ≤ 1) }
    ensures { FinishesOn b triangles.now m.old n (finished_of result) m.new }
{
    let f = open(b, triangles, m, n)?;
    finish_front(f, triangles)
}
