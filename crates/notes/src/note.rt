// A note: 25, and the field that is written of it.
ghost use Rattle.std.specs.Prelude.{◌≡◌, ◌+◌, ◌≤◌, length};
ghost use Rattle.rules.specs.Fields.{field_of};
ghost use Rattle.rules.specs.Later.{given};
ghost use Rattle.rules.specs.Note.{note_tag, note_fits};
ghost use Rattle.rules.specs.Limits.{max_note};
ghost use Rattle.notes_theory.specs.Claims.{note_length};
ghost use Rattle.notes_theory.specs.Packing.{put_at};

use rules::MOST_NOTE;
use wire::fields::NOTE_TAG;

// Whether a note has one to 64 bytes: if not, 25.
pub fn is_note(note: &[u8]) -> bool
    ensures { result ≡ note_fits (given note.now) }
{
    (1..=MOST_NOTE).contains(&note.len())
}

// Writes some bytes over a buffer, from byte n on. (One by one: std's copy calls memmove, which the archive asks of no one else.)
fn put_bytes(buffer: &mut [u8], n: usize, bytes: &[u8])
    requires { n + length bytes.now ≤ length buffer.old }
    ensures { buffer.new ≡ put_at buffer.old n bytes.now }
{
    for i in 0..bytes.len() {
        buffer[n + i] = bytes[i];
    }
}

// Writes the field of a note that fits, from byte n on.
pub(crate) fn put_note(buffer: &mut [u8], n: usize, note: &[u8])
    requires { (length note.now ≤ max_note) × (n + note_length note.now ≤ length buffer.old) }
    ensures { buffer.new ≡ put_at buffer.old n (field_of note_tag note.now) }
{
    let header = [NOTE_TAG, 0, note.len() as u8];
    put_bytes(buffer, n, &header);
    put_bytes(buffer, n + 3, note);
}
