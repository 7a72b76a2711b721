// The operation reader: numbers of three, seven and ten bits, and the operations that they make.
// Its contracts cite specs/Reader.antt.
ghost use Rattle.std.specs.Prelude.{◌≡◌, ◌≤◌, ◌<◌, drop, get_or};
ghost use Rattle.rules.specs.Bits.{bits_of_bytes};
ghost use Rattle.rules.specs.Code.{kinds, kind_in};
ghost use Rattle.rules.specs.Unpack.{rest_fits};
ghost use Rattle.wire.specs.Reader.{NumberIs, ReadIs};

// `as u16` narrows a remainder of at most ten bits, by the clause `n ≤ 10` of `number_at`: `try_from` would be no plainer.
use rules::Operation;

// A field has no more bytes than its length can say.
const MOST_BYTES: usize = 65535;

// The byte at an index, 0 beyond the end.
fn byte_at(bytes: &[u8], i: usize) -> usize
    ensures { (result ≡ get_or bytes.now i 0) × (result < 256) }
{
    if i < bytes.len() {
        usize::from(bytes[i])
    } else {
        0
    }
}

// The number of n bits at a bit position, and the position after it: it lies in three bytes, and is shifted out of them. (Not by
// `from_be_bytes`: a byte past the end counts as 0, so that four bytes would have to be put together first.)
fn number_at(bytes: &[u8], at: usize, n: usize) -> Option<(u16, usize)>
    requires { (0 < n) × (n ≤ 10) }
    ensures { NumberIs n bytes.now at result }
{
    if MOST_BYTES < bytes.len() {
        return None;
    }
    let first = at / 8;
    let bit = at % 8;
    if bytes.len() < first + (bit + n + 7) / 8 {
        return None;
    }
    let a = byte_at(bytes, first);
    let b = byte_at(bytes, first + 1);
    let c = byte_at(bytes, first + 2);
    let word = 65536 * a + 256 * b + c;
    let value = (word >> (24 - bit - n)) % (1 << n);
    Some((value as u16, at + n))
}

/// The operation reader: the bytes it was lent and a bit position.
#[derive(Clone, Copy)]
pub struct OperationReader<'a> {
    pub bytes: &'a [u8],
    pub at: usize,
}

impl<'a> OperationReader<'a> {
    /// Three bits at the reader's position, an operation's code, and the position after them.
    pub fn read3(self) -> Option<(u16, usize)>
        ensures { NumberIs 3 self.entry.bytes.now self.entry.at result }
    {
        number_at(self.bytes, self.at, 3)
    }

    /// Seven bits, the number of a waiting loop.
    pub fn read7(self) -> Option<(u16, usize)>
        ensures { NumberIs 7 self.entry.bytes.now self.entry.at result }
    {
        number_at(self.bytes, self.at, 7)
    }

    /// Ten bits, the number of a place.
    pub fn read10(self) -> Option<(u16, usize)>
        ensures { NumberIs 10 self.entry.bytes.now self.entry.at result }
    {
        number_at(self.bytes, self.at, 10)
    }

    /// The operation at the reader's position, and the position after it, which is further on and in the bytes.
    pub fn read_operation(mut self) -> Option<(Operation, usize)>
        ensures { ReadIs self.entry.bytes.now self.entry.at result }
    {
        let (code, next) = self.read3()?;
        self.at = next;
        let kind = kind_of(code);
        match kind {
            Operation::Split(_) => {
                let (i, next) = self.read10()?;
                Some((Operation::Split(i), next))
            }
            Operation::Union(_, _) => {
                let (p, next) = self.read7()?;
                self.at = next;
                let (j, next) = self.read10()?;
                Some((Operation::Union(p, j), next))
            }
            _ => Some((kind, next)),
        }
    }
}

/// The kind of an operation, by its code; its indices are read apart.
// No `TryFrom<u16>`: three bits are always a code, and the kinds of a union and a split have no indices yet.
#[tactic(auto, unfolding(rules::specs::Code::kind_in))]
pub fn kind_of(code: u16) -> Operation
    ensures { result ≡ kind_in code kinds }
{
    match code {
        0 => Operation::New,
        1 => Operation::Forward,
        2 => Operation::Backward,
        3 => Operation::Border,
        4 => Operation::Split(0),
        5 => Operation::Close,
        6 => Operation::Union(0, 0),
        _ => Operation::Start,
    }
}

/// The operation at a bit position of some bytes, for those who keep no reader.
pub fn operation_at(bytes: &[u8], at: usize) -> Option<(Operation, usize)>
    ensures { ReadIs bytes.now at result }
{
    OperationReader { bytes, at }.read_operation()
}

/// Whether fewer than eight bits are left after a bit position, all of them zero: 19's test of the last byte.
pub fn is_rest_zero(ops: &[u8], at: usize) -> bool
    ensures { result ≡ rest_fits (drop at (bits_of_bytes ops.now)) }
{
    let last = at / 8;
    let bit = at % 8;
    if ops.len() <= last {
        return true;
    }
    if last + 1 < ops.len() || bit == 0 {
        return false;
    }
    usize::from(ops[last]) % (1 << (8 - bit)) == 0
}
