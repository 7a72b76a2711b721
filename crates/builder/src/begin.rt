// The beginning of a building: 13, 14, or an empty builder.
ghost use Rattle.std.specs.Prelude.{◌≡◌};
ghost use Rattle.rules.specs.Build.{begun_of};
ghost use Rattle.state_theory.specs.Finishing.Core.{BeginsOn, cleared_by};

use cutborder::PLACES;
use rules::refusal::Refusal;
use rules::{Builder, Counts};
use wire::fields::{is_in_range, is_long_enough};

// Begins a building with these counts, in any triangle buffer, which is only read, where n place records were lent: of both only the
// number of entries counts.
pub fn begin_on(stated: Counts, triangles: &[u16], n: usize) -> Result<Builder, Refusal>
    ensures { BeginsOn stated triangles.now n (begun_of result) triangles.now }
{
    if !is_in_range(stated) {
        return Err(Refusal::CountOutOfRange);
    }
    if !is_long_enough(stated, triangles.len(), n) {
        return Err(Refusal::UnpackingRoom);
    }
    Ok(Builder {
        stated,
        ..Builder::empty()
    })
}

// How many place records a beginning clears, read off its answer: the first 1,024, if it is accepted.
pub fn cleared(r: &Result<Builder, Refusal>) -> usize
    ensures { result ≡ cleared_by (begun_of r.now) }
{
    match r {
        Ok(_) => PLACES,
        Err(_) => 0,
    }
}
