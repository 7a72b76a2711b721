// Packing a list with positions. Where the positions do not fit only 1 to 8 and 22 are tested; else the list is packed into the buffer
// without the bytes that the field takes, and the field is written after the pack.
ghost use Rattle.std.specs.Prelude.{true, ◌≡◌, ◌-◌};
ghost use Rattle.rules.specs.Packed.{packed_of};
ghost use Rattle.rules.specs.PackWhole.{extras, positions_fit};
ghost use Rattle.rules.specs.Later.{not_given, given};
ghost use Rattle.positions_theory.specs.Packing.{PackedWholeOn, Unfit, buffer_after, Followable, Follows};

use crate::writing::{are_positions, put_field};
use packer::{cleared, pack_on, test_rooms};
use rules::refusal::Refusal;
use rules::{CORNERS, VERTICES};

// The refusal with number k, if one has it.
fn refusal_of(k: u8) -> Option<Refusal> {
    let at = usize::from(k).checked_sub(1)?;
    Refusal::ALL.get(at).copied()
}

// The answer where what is given besides does not fit: the first of 1 to 8, 22 and k. The numbering and the order have so many entries.
pub fn unfit(
    v: usize,
    list: &[u16],
    numbering: usize,
    order: usize,
    n: usize,
    k: u8,
) -> Result<u32, Refusal>
    ensures { Unfit v list.now numbering order n k (packed_of result) }
{
    let mut chains = [0u16; VERTICES + CORNERS];
    test_rooms(v, list, numbering, order, n, &mut chains)?;
    match k {
        23 => Err(Refusal::UnfitPositions),
        25 => Err(Refusal::UnfitNote),
        // No caller asks it: what is given besides is refused with 23 or 25.
        _ => Err(refusal_of(k).unwrap_or(Refusal::UnfitNote)),
    }
}

// How many bytes of a buffer are left before a field at its end.
pub fn room_before(buffer: usize, field: usize) -> usize
    ensures { result ≡ buffer - field }
{
    buffer.saturating_sub(field)
}

// After a packing into a part of the buffer answered r: all is cleared if that part was.
pub fn clear_after(r: &Result<u32, Refusal>, buffer: &mut [u8])
    ensures { buffer.new ≡ buffer_after (packed_of r.now) buffer.old }
{
    if 0 < cleared(r) {
        buffer.fill(0);
    }
}

// The field follows the pack of the list, whose packing answered r.
fn follow(
    r: Result<u32, Refusal>,
    positions: &[i16],
    numbering: &[u16],
    buffer: &mut [u8],
) -> Result<u32, Refusal>
    requires { Followable (packed_of r) positions.now numbering.now buffer.old }
    ensures { Follows (packed_of r) positions.now numbering.now buffer.old (packed_of result) buffer.new }
{
    let Ok(k) = r else {
        clear_after(&r, buffer);
        return r;
    };
    put_field(buffer, k as usize, positions, numbering);
    Ok(k + 3 + 2 * (positions.len() as u32))
}

// Packs a list with positions that fit.
fn pack_fitting(
    v: usize,
    list: &[u16],
    positions: &[i16],
    numbering: &mut [u16],
    buffer: &mut [u8],
    order: &mut [u16],
    n: usize,
) -> Result<u32, Refusal>
    requires { positions_fit v positions.now ≡ true }
    ensures { PackedWholeOn v list.now (extras (given positions.now) not_given) numbering.old
        buffer.old order.old n (packed_of result) numbering.new buffer.new order.new }
{
    let end = room_before(buffer.len(), 3 + 2 * positions.len());
    let r = pack_on(v, list, numbering, &mut buffer[..end], order, n);
    follow(r, positions, numbering, buffer)
}

// Packs any list of a model of v vertices, with any positions by old vertex, into any buffers, where n place records were lent. After 1
// to 8, 22 and 23 nothing has changed.
pub fn pack_positions_on(
    v: usize,
    list: &[u16],
    positions: &[i16],
    numbering: &mut [u16],
    buffer: &mut [u8],
    order: &mut [u16],
    n: usize,
) -> Result<u32, Refusal>
    ensures { PackedWholeOn v list.now (extras (given positions.now) not_given) numbering.old
        buffer.old order.old n (packed_of result) numbering.new buffer.new order.new }
{
    if !are_positions(positions, v) {
        return unfit(
            v,
            list,
            numbering.len(),
            order.len(),
            n,
            Refusal::UnfitPositions.number(),
        );
    }
    pack_fitting(v, list, positions, numbering, buffer, order, n)
}
