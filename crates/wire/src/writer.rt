// An operation's bits, written into a lent buffer from any bit position on.
// Its contracts cite specs/Writer.antt.
ghost use Rattle.std.specs.Prelude.{◌≡◌, ◌+◌, ◌^◌, ◌≤◌, ◌<◌, min, length};
ghost use Rattle.wire_theory.specs.Buffer.{word_of};
ghost use Rattle.wire_theory.specs.Shape.{width_of};
ghost use Rattle.wire.specs.Writer.{value_in, fits_in, last_number, buffer_after};

// `as u32` narrows what the clauses of `word_of` bound, 32 bits at most: `try_from` would be no plainer.
use rules::Operation;

// A number and how many bits it takes.
#[derive(Clone, Copy)]
struct Piece {
    value: usize,
    width: usize,
}

// The code and the indices of an operation as one number.
fn piece_of(o: Operation) -> Piece
    ensures { (result.width ≡ width_of o) × (result.value ≡ value_in o) }
{
    match o {
        Operation::New => Piece { value: 0, width: 3 },
        Operation::Forward => Piece { value: 1, width: 3 },
        Operation::Backward => Piece { value: 2, width: 3 },
        Operation::Border => Piece { value: 3, width: 3 },
        // 4096 is the code 4 before ten bits.
        Operation::Split(i) => Piece {
            value: 4096 + usize::from(i) % 1024,
            width: 13,
        },
        Operation::Close => Piece { value: 5, width: 3 },
        // 786432 is the code 6 before seventeen bits.
        Operation::Union(p, j) => Piece {
            value: 786432 + usize::from(p) % 128 * 1024 + usize::from(j) % 1024,
            width: 20,
        },
        Operation::Start => Piece { value: 7, width: 3 },
    }
}

// The first bits of a byte and then a number of n bits, at the front of four bytes.
fn word_of(b: usize, bit: usize, n: usize, value: usize) -> u32
    requires { (b < 256) × (bit < 8) × (n ≤ 20) × (value < 2 ^ n) }
    ensures { result ≡ word_of b bit n value }
{
    (((b >> (8 - bit) << n) + value) << (32 - bit - n)) as u32
}

/// Whether an operation's bits were written, and the bit position after them, or the last that a number holds. (No `Option`: the
/// position is told either way, since packing goes on counting after bits that do not fit: 9 and 10 come before 11.)
#[derive(Clone, Copy, Debug, PartialEq, Eq)]
pub struct Written {
    pub fits: bool,
    pub next: usize,
}

/// Writes an operation's bits at a bit position, if the buffer has their last byte, whose rest is then zero. Nothing beyond that
/// byte is written; if it has not, nothing at all.
#[tactic(auto, using(crate::proofs::Words::piece_most, crate::proofs::Words::piece_below), unfolding(crate::specs::Writer::buffer_after))]
pub fn write_operation(pack: &mut [u8], at: usize, o: Operation) -> Written
    ensures fits { result.fits ≡ fits_in (length pack.old) at o }
    ensures next { result.next ≡ min (at + width_of o) last_number }
    ensures bytes { pack.new ≡ buffer_after pack.old at o }
{
    let piece = piece_of(o);
    let n = piece.width;
    let next = at.saturating_add(n);
    let k = at / 8;
    let bit = at % 8;
    let m = (bit + n + 7) / 8;
    if pack.len() < k + m {
        return Written { fits: false, next };
    }
    let word = word_of(usize::from(pack[k]), bit, n, piece.value);
    pack[k..k + m].copy_from_slice(&word.to_be_bytes()[..m]);
    Written { fits: true, next }
}
