// Unpacking a pack that may have a note: what stands before the note is unpacked, then 25 is tested.
ghost use Rattle.std.specs.Prelude.{◌≡◌};
ghost use Rattle.rules.specs.Note.{note_fits};
ghost use Rattle.rules.specs.Unpacked.{unpacked_of};
ghost use Rattle.wire.specs.Told.{lent};
ghost use Rattle.notes_theory.specs.Unpacking.{UnpackedNotedOn};

use crate::note::is_note;
use positions::unpacking::{tested, unpack_whole_on};
use rules::Model;
use rules::refusal::Refusal;
use wire::fields::note_of;

// 25, where there may be no note: none fits always.
pub fn is_fit(note: Option<&[u8]>) -> bool
    ensures { result ≡ note_fits (lent note.entry) }
{
    match note {
        Some(note) => is_note(note),
        None => true,
    }
}

// Unpacks any bytes into any triangle buffer, where n place records were lent. After 12 to 14 nothing has changed.
pub fn unpack_noted_on(pack: &[u8], triangles: &mut [u16], n: usize) -> Result<Model, Refusal>
    ensures { UnpackedNotedOn pack.now triangles.old n (unpacked_of result) triangles.new }
{
    let split = note_of(pack);
    let model = unpack_whole_on(split.before, &mut *triangles, n)?;
    let passes = is_fit(split.note);
    tested(passes, Refusal::UnfitNote, triangles, Ok(model))
}
