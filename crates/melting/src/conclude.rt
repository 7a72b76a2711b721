// The end of a reading: 19, 23, 25, 24, and the answer.
ghost use Rattle.std.specs.Prelude.{◌≡◌};
ghost use Rattle.rules.specs.Furnace.{melt_run};
ghost use Rattle.rules.specs.Melted.{melted_of};
ghost use Rattle.wire.specs.Told.{lent};
ghost use Rattle.melting_theory.specs.Runs.{run_in, Completes};

use border::finish::is_as_stated;
use cutborder::Melt;
use notes::unpacking::is_fit;
use positions::field::are_fit;
use rules::refusal::Refusal;
use wire::reader::is_rest_zero;

// The answer for a complete model. (Each test on its own: melting_theory has a law for each; with two joined by `||` the check did not
// find the proof, and answers by cases are longer than these.)
pub(crate) fn conclude(
    ops: &[u8],
    end: Melt,
    positions: Option<&[u8]>,
    note: Option<&[u8]>,
) -> Result<i64, Refusal>
    requires { Completes ops.now (lent positions) end }
    ensures { melted_of result ≡ melt_run (lent positions.entry) (lent note.entry) (run_in ops.now end) }
{
    let s = end.front;
    if !is_rest_zero(ops, end.at) {
        return Err(Refusal::DiffersFromStated);
    }
    if !is_as_stated(s) {
        return Err(Refusal::DiffersFromStated);
    }
    if !are_fit(positions, s.stated.vertices) {
        return Err(Refusal::UnfitPositions);
    }
    if !is_fit(note) {
        return Err(Refusal::UnfitNote);
    }
    let Some(_) = positions else {
        return Err(Refusal::NoVolume);
    };
    if s.rims != 0 {
        return Err(Refusal::NoVolume);
    }
    Ok(end.six)
}
