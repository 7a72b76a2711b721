// Packing a list with a note. Where the note does not fit only the tests before it are made; else all else is packed into the buffer
// without the bytes that the note's field takes, and the field is written after the pack.
ghost use Rattle.rules.specs.Later.{not_given, given};
ghost use Rattle.rules.specs.Packed.{packed_of};
ghost use Rattle.rules.specs.Refusal.{number_of};
ghost use Rattle.rules.specs.PackWhole.{extras};
ghost use Rattle.positions_theory.specs.Packing.{PackedWholeOn};
ghost use Rattle.notes_theory.specs.Packing.{NoteRoom, NoteFollows, FaultIs};

use crate::note::{is_note, put_note};
use packer::pack_on;
use positions::packing::{clear_after, pack_positions_on, room_before, unfit};
use positions::writing::are_positions;
use rules::refusal::Refusal;

// The note follows the pack of all else, whose packing answered r.
fn follow(r: Result<u32, Refusal>, note: &[u8], buffer: &mut [u8]) -> Result<u32, Refusal>
    requires { NoteRoom (packed_of r) note.now buffer.old }
    ensures { NoteFollows (packed_of r) note.now buffer.old (packed_of result) buffer.new }
{
    let Ok(k) = r else {
        clear_after(&r, buffer);
        return r;
    };
    put_note(buffer, k as usize, note);
    Ok(k + 3 + (note.len() as u32))
}

// Packs any list of a model of v vertices, with any note, into any buffers, where n place records were lent. After 1 to 8, 22 and 25
// nothing has changed.
pub fn pack_note_on(
    v: usize,
    list: &[u16],
    note: &[u8],
    numbering: &mut [u16],
    buffer: &mut [u8],
    order: &mut [u16],
    n: usize,
) -> Result<u32, Refusal>
    ensures { PackedWholeOn v list.now (extras not_given (given note.now)) numbering.old
        buffer.old order.old n (packed_of result) numbering.new buffer.new order.new }
{
    if !is_note(note) {
        return unfit(
            v,
            list,
            numbering.len(),
            order.len(),
            n,
            Refusal::UnfitNote.number(),
        );
    }
    let end = room_before(buffer.len(), 3 + note.len());
    let r = pack_on(v, list, numbering, &mut buffer[..end], order, n);
    follow(r, note, buffer)
}

// The refusal of a note that does not fit, with positions: 23 comes first.
fn fault(positions: &[i16], v: usize) -> Refusal
    ensures { FaultIs v positions.now (number_of result) }
{
    if are_positions(positions, v) {
        Refusal::UnfitNote
    } else {
        Refusal::UnfitPositions
    }
}

// The same with any positions by old vertex besides. After 1 to 8, 22, 23 and 25 nothing has changed.
pub fn pack_positions_note_on(
    v: usize,
    list: &[u16],
    positions: &[i16],
    note: &[u8],
    numbering: &mut [u16],
    buffer: &mut [u8],
    order: &mut [u16],
    n: usize,
) -> Result<u32, Refusal>
    ensures { PackedWholeOn v list.now (extras (given positions.now) (given note.now))
        numbering.old buffer.old order.old n (packed_of result) numbering.new buffer.new
        order.new }
{
    if !is_note(note) {
        let e = fault(positions, v);
        return unfit(v, list, numbering.len(), order.len(), n, e.number());
    }
    let end = room_before(buffer.len(), 3 + note.len());
    let r = pack_positions_on(v, list, positions, numbering, &mut buffer[..end], order, n);
    follow(r, note, buffer)
}
