// Unpacking a pack that may have positions: its first two fields are unpacked, then 23 is tested.
ghost use Rattle.std.specs.Prelude.{◌≡◌};
ghost use Rattle.rules.specs.Refusal.{number_of};
ghost use Rattle.rules.specs.Unpacked.{unpacked_of};
ghost use Rattle.positions_theory.specs.Unpacking.{UnpackedWholeOn, always, tested_answer, tested_triangles, RoomFor};

use crate::field::are_fit;
use places::buffers::clear;
use rules::Model;
use rules::refusal::Refusal;
use unpacker::unpack_on;
use wire::fields::parts_of;

// A test of what follows the operations, after an unpacking that answered r: where it fails refusal e, and the triangles are cleared.
pub fn tested(
    passes: bool,
    e: Refusal,
    triangles: &mut [u16],
    r: Result<Model, Refusal>,
) -> Result<Model, Refusal>
    requires { RoomFor (unpacked_of r) triangles.old }
    ensures answer { unpacked_of result ≡ tested_answer (number_of e) (always passes) (unpacked_of r) }
    ensures triangles { triangles.new ≡ tested_triangles (always passes) (unpacked_of r) triangles.old }
{
    let Ok(model) = r else {
        return r;
    };
    if passes {
        return r;
    }
    clear(triangles, 3 * usize::from(model.triangles));
    Err(e)
}

// Unpacks any bytes into any triangle buffer, where n place records were lent. After 12 to 14 nothing has changed.
pub fn unpack_whole_on(pack: &[u8], triangles: &mut [u16], n: usize) -> Result<Model, Refusal>
    ensures { UnpackedWholeOn pack.now triangles.old n (unpacked_of result) triangles.new }
{
    let Some(parts) = parts_of(pack) else {
        return Err(Refusal::NotFields);
    };
    let model = unpack_on(parts.two, &mut *triangles, n)?;
    let passes = are_fit(parts.positions, model.vertices);
    tested(passes, Refusal::UnfitPositions, triangles, Ok(model))
}
