// The positions that are lent with a list: 23, and the field that is written of them.
ghost use Rattle.std.specs.Prelude.{◌≡◌, ◌+◌, ◌*◌, ◌<◌, length};
ghost use Rattle.rules.specs.Grid.{in_grid, unsigned_of};
ghost use Rattle.rules.specs.PackWhole.{positions_fit};
ghost use Rattle.positions_theory.specs.Filling.{set_word, place_of, Puttable, Put, FieldRoom, FieldPut};

use crate::field::is_in_range;
use wire::fields::POSITIONS_TAG;

// A signed number as one of 16 bits: a negative number n is 65,536 + n.
// Named for `unsigned_of` of rules, which its clause says of the cast.
fn unsigned(z: i16) -> u16
    ensures { result ≡ unsigned_of z }
{
    z.cast_unsigned()
}

// Whether a position is in range.
fn is_position(z: i16) -> bool
    ensures { result ≡ in_grid z }
{
    is_in_range(unsigned(z))
}

// 23, of positions that are lent for v vertices.
pub fn are_positions(positions: &[i16], v: usize) -> bool
    ensures { result ≡ positions_fit v positions.now }
{
    if positions.len() / 3 != v || positions.len() % 3 != 0 {
        return false;
    }
    // No `.all`: it is many times slower on a list that is read whole.
    for i in (0..positions.len()).rev() {
        if !is_position(positions[i]) {
            return false;
        }
    }
    true
}

// Writes a word at a byte, the high byte first.
fn put_word(buffer: &mut [u8], at: usize, w: u16)
    requires { at + 1 < length buffer.old }
    ensures { buffer.new ≡ set_word buffer.old at w }
{
    let [high, low] = w.to_be_bytes();
    buffer[at] = high;
    buffer[at + 1] = low;
}

// The place of position i among the positions in new numbering.
fn place_of(numbering: &[u16], i: usize) -> usize
    requires { i < 3 * length numbering.now }
    ensures { result ≡ place_of numbering.now i }
{
    3 * usize::from(numbering[i / 3]) + i % 3
}

// Writes the positions of old vertices in new numbering, from a byte on.
fn put_positions(buffer: &mut [u8], from: usize, positions: &[i16], numbering: &[u16])
    requires { Puttable buffer.old from positions.now numbering.now }
    ensures { Put buffer.old from positions.now numbering.now buffer.new }
{
    // By number, as `Filled` of positions_theory counts: `place_of` goes by it.
    for i in 0..positions.len() {
        let place = place_of(numbering, i);
        put_word(buffer, from + 2 * place, unsigned(positions[i]));
    }
}

// Writes the field of positions, in new numbering, from byte n on.
pub(crate) fn put_field(buffer: &mut [u8], n: usize, positions: &[i16], numbering: &[u16])
    requires { FieldRoom buffer.old n positions.now numbering.now }
    ensures { FieldPut buffer.old n positions.now numbering.now buffer.new }
{
    buffer[n] = POSITIONS_TAG;
    put_word(buffer, n + 1, (2 * positions.len()) as u16);
    put_positions(buffer, n + 3, positions, numbering);
}
