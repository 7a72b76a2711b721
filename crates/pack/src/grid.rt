// The positions that numbers stand for.
ghost use Rattle.std.specs.Prelude.{◌≡◌};
ghost use Rattle.rules.specs.Grid.{signed_of};
ghost use Rattle.pack.specs.Texts.{StandFor, AsManyAsFit};

use rules::VERTICES;

// Three positions for each vertex, and one more to tell a longer list.
pub const POSITIONS: usize = 3 * VERTICES + 1;

// A number of 16 bits as a signed one: a negative number n stands as 65,536 + n.
// Named for `signed_of` of rules, which its clause says of the cast.
fn signed(w: u16) -> i16
    ensures { result ≡ signed_of w }
{
    w.cast_signed()
}

// Puts the positions that numbers stand for into a buffer, as many as fit, and answers how many.
pub fn put_positions(numbers: &[u16], positions: &mut [i16]) -> usize
    ensures positions { StandFor numbers.now result positions.new }
    ensures count { AsManyAsFit numbers.now result positions.new }
{
    let n = numbers.len().min(positions.len());
    for i in 0..n {
        positions[i] = signed(numbers[i]);
    }
    n
}
