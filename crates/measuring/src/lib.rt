// The volume call: a pack is unpacked, and six times its volume is summed up. 24 is tested last. What the contracts cite stands in
// positions_theory/specs/ and notes_theory/specs/.
#![tactic(auto)]

ghost use Rattle.std.specs.Prelude.{◌≡◌};
ghost use Rattle.rules.specs.Measured.{measured_of};
ghost use Rattle.rules.specs.Later.{parts_of};
ghost use Rattle.rules.specs.Note.{take_note};
ghost use Rattle.rules.specs.Reading.{positions_in};
ghost use Rattle.wire.specs.Told.{lent};
ghost use Rattle.positions_theory.specs.Unpacking.{cleared_measuring};
ghost use Rattle.notes_theory.specs.Unpacking.{MeasuredOn};

use cutborder::PLACES;
use determinants::six_of;
use notes::unpacking::unpack_noted_on;
use places::buffers::clear;
use rules::Model;
use rules::refusal::Refusal;
use wire::fields::{before_note, parts_of};

// The contents of the field of positions of any bytes, if there is one.
fn positions_of<'a>(pack: &'a [u8]) -> Option<&'a [u8]>
    ensures { lent result ≡ positions_in (parts_of (take_note pack.now).before) }
{
    parts_of(before_note(pack))?.positions
}

// Unpacks any bytes into any triangle buffer, where n place records were lent, and measures the model: 24 where it has no positions or
// a rim, and its triangles are cleared again.
pub fn volume_on(pack: &[u8], triangles: &mut [u16], n: usize) -> Result<(Model, i64), Refusal>
    ensures { MeasuredOn pack.now triangles.old n (measured_of result) triangles.new }
{
    let model = unpack_noted_on(pack, &mut *triangles, n)?;
    match positions_of(pack) {
        Some(field) if model.totals.rims == 0 => {
            let six = six_of(triangles, usize::from(model.triangles), field);
            Ok((model, six))
        }
        _ => {
            clear(triangles, 3 * usize::from(model.triangles));
            Err(Refusal::NoVolume)
        }
    }
}

// How many place records the volume call clears, read off its answer: none after 12 to 14, as in unpacking, else the first 1,024.
pub fn cleared(r: &Result<(Model, i64), Refusal>) -> usize
    ensures { result ≡ cleared_measuring (measured_of r.now) }
{
    match r {
        Ok(_) => PLACES,
        Err(e) => unpacker::cleared(&Err(*e)),
    }
}
