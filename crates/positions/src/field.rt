// 23: whether a field has the positions of all vertices, each in range.
ghost use Rattle.std.specs.Prelude.{◌≡◌, ◌+◌, ◌*◌, ◌<◌, pos, length, get_or};
ghost use Rattle.rules.specs.Grid.{in_grid, signed_of, positions_from};
ghost use Rattle.rules.specs.Later.{given};
ghost use Rattle.rules.specs.UnpackWhole.{field_fits};
ghost use Rattle.wire.specs.Told.{lent};

use wire::fields::word_at;

// A signed number stands as one of 16 bits, a negative number n as 65,536 + n. Those in range stand before END or from START on.
const END: u16 = 2048;

const START: u16 = 63488;

// Whether a number stands for one in range.
pub(crate) fn is_in_range(w: u16) -> bool
    ensures { result ≡ in_grid (signed_of w) }
{
    w < END || START <= w
}

// Whether position i is in range.
fn is_in_grid(field: &[u8], i: usize) -> bool
    requires { 2 * i + 1 < length field.now }
    ensures { result ≡ in_grid (get_or (positions_from field.now) i (pos 0)) }
{
    is_in_range(word_at(field, 2 * i))
}

// 23, of a pack with v vertices.
pub fn is_field(field: &[u8], v: u16) -> bool
    ensures { result ≡ field_fits v (given field.now) }
{
    if field.len() != 6 * usize::from(v) {
        return false;
    }
    // By number: position i is that of `positions_from` of rules, which the clause of `is_in_grid` names, in bytes 2i and 2i + 1.
    for i in (0..3 * usize::from(v)).rev() {
        if !is_in_grid(field, i) {
            return false;
        }
    }
    true
}

// 23, where there may be no field: none fits always.
pub fn are_fit(positions: Option<&[u8]>, v: u16) -> bool
    ensures { result ≡ field_fits v (lent positions.entry) }
{
    match positions {
        Some(field) => is_field(field, v),
        None => true,
    }
}
