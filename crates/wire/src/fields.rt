// The tagged fields of a pack: taken off the front of any bytes, and written before the operations.
// Its contracts cite specs/Fields.antt.
ghost use Rattle.std.specs.Prelude.{◌≡◌, ◌+◌, ◌-◌, ◌*◌, ◌≤◌, ◌<◌, true, leb, length, take, drop};
ghost use Rattle.std.specs.Prelude.{Some, IsNone, IfSome, IfOk, IfErr};
ghost use Rattle.rules.specs.Fields.{word_at, take_field, no_field, field, fields_of, fields, counts_from};
ghost use Rattle.rules.specs.Limits.{in_range};
ghost use Rattle.rules.specs.Machine.{long_enough};
ghost use Rattle.rules.specs.Later.{parts_of};
ghost use Rattle.rules.specs.Note.{past, take_note};
ghost use Rattle.promises.specs.Promises.{further};
ghost use Rattle.wire_theory.specs.Header.{header_of};
ghost use Rattle.wire.specs.Fields.{refused_by, headed};
ghost use Rattle.wire.specs.Told.{parts_told, note_told};

// `as u16` names constants that have 16 bits, or narrows a remainder by 65,536 (`header_of`): `try_from` would be no plainer.
use rules::refusal::Refusal;
use rules::{Builder, Counts, TRIANGLES, VERTICES};

const COUNTS_TAG: u8 = 1;

const OPERATIONS_TAG: u8 = 2;

pub const POSITIONS_TAG: u8 = 3;

pub const NOTE_TAG: u8 = 4;

// So many bytes stand before the operations: 11 for the counts with their tag and length, 3 for the operations' tag and
// length.
pub const HEADER: usize = 14;

/// The contents of a field, and the bytes after it.
#[derive(Clone, Copy)]
pub struct Field<'a> {
    pub contents: &'a [u8],
    pub rest: &'a [u8],
}

/// What a pack holds: the counts that it states, and its operations.
#[derive(Clone, Copy)]
pub struct Pack<'a> {
    pub stated: Counts,
    pub operations: &'a [u8],
}

/// A pack's first two fields, as they stand, and the contents of the third, if there is one.
#[derive(Clone, Copy)]
pub struct Parts<'a> {
    pub two: &'a [u8],
    pub positions: Option<&'a [u8]>,
}

/// What stands before the note of a pack, and the contents of the note, if there is one.
#[derive(Clone, Copy)]
pub struct NoteSplit<'a> {
    pub before: &'a [u8],
    pub note: Option<&'a [u8]>,
}

/// The number in two bytes.
pub fn word_at(pack: &[u8], i: usize) -> u16
    requires { i + 1 < length pack.now }
    ensures { result ≡ word_at pack.now i }
{
    u16::from_be_bytes([pack[i], pack[i + 1]])
}

/// Takes the field with this tag off the front of some bytes, if it is there and whole.
#[tactic(auto, unfolding(rules::specs::Fields::take_field))]
pub fn take_field<'a>(bytes: &'a [u8], tag: u8) -> Option<Field<'a>>
    ensures none { IsNone result → take_field tag bytes.now ≡ no_field }
    ensures some { IfSome result (λ f. take_field tag bytes.now ≡ field f.contents.now f.rest.now) }
    ensures long { IfSome result (λ f. length f.contents.now + length f.rest.now + 3 ≡ length bytes.now) }
    ensures short { IfSome result (λ f. length f.contents.now < 65536) }
    ensures place { IfSome result (λ f. f.contents.ref_ptr ≡ further 3 bytes.entry.ref_ptr) }
    ensures after { IfSome result (λ f. f.rest.ref_ptr ≡ further (length bytes.now - length f.rest.now) bytes.entry.ref_ptr) }
{
    let [t, high, low, rest @ ..] = bytes else {
        return None;
    };
    // As the definition writes it: with `from_be_bytes` here the check does not find the proof by itself.
    let n = 256 * usize::from(*high) + usize::from(*low);
    if *t != tag {
        return None;
    }
    if rest.len() < n {
        return None;
    }
    Some(Field {
        contents: &bytes[3..3 + n],
        rest: &bytes[3 + n..],
    })
}

// The four counts of the first field's contents.
fn counts_of(contents: &[u8]) -> Counts
    requires { length contents.now ≡ 8 }
    ensures { result ≡ counts_from contents.now }
{
    Counts {
        vertices: word_at(contents, 0),
        triangles: word_at(contents, 2),
        places: word_at(contents, 4),
        loops: word_at(contents, 6),
    }
}

/// Whether the counts are in 13's ranges.
pub fn is_in_range(counts: Counts) -> bool
    ensures { result ≡ in_range counts }
{
    (3..=VERTICES as u16).contains(&counts.vertices)
        && (1..=TRIANGLES as u16).contains(&counts.triangles)
        && (3..=Builder::MAX_PLACES as u16).contains(&counts.places)
        && (1..=Builder::MAX_LOOPS as u16).contains(&counts.loops)
}

/// 14: whether a triangle buffer of this length and n place records are enough for what is stated.
pub fn is_long_enough(stated: Counts, length: usize, n: usize) -> bool
    ensures { result ≡ long_enough (record { triangles = length; places = n }) stated }
{
    3 * usize::from(stated.triangles) <= length && Builder::MAX_PLACES <= n
}

/// The two fields of any bytes, tested for 12 and 13. Nothing follows the operations, which are the very bytes of the pack
/// from its header on.
#[tactic(auto, unfolding(rules::specs::Fields::fields_of))]
pub fn fields_of<'a>(pack: &'a [u8]) -> Result<Pack<'a>, Refusal>
    ensures found { IfOk result (λ p. fields_of pack.now ≡ fields p.stated p.operations.now) }
    ensures range { IfOk result (λ p. in_range p.stated ≡ true) }
    ensures refused { IfErr result (λ e. refused_by (fields_of pack.now) ≡ Some e) }
    ensures short { IfOk result (λ p. length p.operations.now < 65536) }
    ensures long { IfOk result (λ p. 14 + length p.operations.now ≡ length pack.now) }
    ensures place { IfOk result (λ p. p.operations.ref_ptr ≡ further 14 pack.entry.ref_ptr) }
    ensures back { IfOk result (λ p. p.operations.now ≡ drop 14 pack.now) }
{
    let Some(first) = take_field(pack, COUNTS_TAG) else {
        return Err(Refusal::NotFields);
    };
    if first.contents.len() != 8 {
        return Err(Refusal::NotFields);
    }
    let Some(second) = take_field(first.rest, OPERATIONS_TAG) else {
        return Err(Refusal::NotFields);
    };
    if !second.rest.is_empty() {
        return Err(Refusal::NotFields);
    }
    let stated = counts_of(first.contents);
    if !is_in_range(stated) {
        return Err(Refusal::CountOutOfRange);
    }
    Ok(Pack {
        stated,
        operations: second.contents,
    })
}

/// The parts of any bytes. They are the very bytes of the pack: the first two fields from its first byte on, the contents of the
/// third from 3 past these to its end. That the first field has eight bytes is left to `fields_of`.
#[tactic(auto, unfolding(rules::specs::Later::parts_of, rules::specs::Later::later_part), using(crate::proofs::Later::three_then_more))]
pub fn parts_of<'a>(pack: &'a [u8]) -> Option<Parts<'a>>
    ensures told { parts_of pack.now ≡ parts_told result }
    ensures first { IfSome result (λ p. p.two.ref_ptr ≡ pack.entry.ref_ptr) }
    ensures front { IfSome result (λ p. p.two.now ≡ take (length p.two.now) pack.now) }
    ensures whole { IfSome result (λ p. IsNone p.positions → length p.two.now ≡ length pack.now) }
    ensures long { IfSome result (λ p. IfSome p.positions (λ s. length p.two.now + 3 + length s.now ≡ length pack.now)) }
    ensures place { IfSome result (λ p. IfSome p.positions (λ s. s.ref_ptr ≡ further (length p.two.now + 3) pack.entry.ref_ptr)) }
    ensures back { IfSome result (λ p. IfSome p.positions (λ s. s.now ≡ drop (length p.two.now + 3) pack.now)) }
{
    let counts = take_field(pack, COUNTS_TAG)?;
    let operations = take_field(counts.rest, OPERATIONS_TAG)?;
    let two = &pack[..pack.len() - operations.rest.len()];
    if operations.rest.is_empty() {
        return Some(Parts {
            two,
            positions: None,
        });
    }
    let third = take_field(operations.rest, POSITIONS_TAG)?;
    if !third.rest.is_empty() {
        return None;
    }
    Some(Parts {
        two,
        positions: Some(third.contents),
    })
}

// What follows the field with this tag, if it is there and whole; else all.
#[tactic(auto, unfolding(rules::specs::Fields::take_field))]
fn past<'a>(bytes: &'a [u8], tag: u8) -> &'a [u8]
    ensures rest { result.now ≡ past tag bytes.now }
    ensures shorter { length result.now ≤ length bytes.now }
    ensures place { result.ref_ptr ≡ further (length bytes.now - length result.now) bytes.entry.ref_ptr }
{
    match take_field(bytes, tag) {
        Some(field) => field.rest,
        None => bytes,
    }
}

/// The note of any bytes: the last field, after those of the other tags that are there. It and what stands before it are the very
/// bytes of the pack: these from its first on, the note from 3 past them to its end.
#[tactic(auto, unfolding(rules::specs::Note::take_note))]
pub fn note_of<'a>(pack: &'a [u8]) -> NoteSplit<'a>
    ensures told { note_told result ≡ take_note pack.now }
    ensures first { result.before.ref_ptr ≡ pack.entry.ref_ptr }
    ensures front { result.before.now ≡ take (length result.before.now) pack.now }
    ensures whole { IsNone result.note → length result.before.now ≡ length pack.now }
    ensures long { IfSome result.note (λ n. length result.before.now + 3 + length n.now ≡ length pack.now) }
    ensures place { IfSome result.note (λ n. n.ref_ptr ≡ further (length result.before.now + 3) pack.entry.ref_ptr) }
    ensures back { IfSome result.note (λ n. n.now ≡ drop (length result.before.now + 3) pack.now) }
{
    let more = past(past(past(pack, COUNTS_TAG), OPERATIONS_TAG), POSITIONS_TAG);
    let all = NoteSplit {
        before: pack,
        note: None,
    };
    let Some(last) = take_field(more, NOTE_TAG) else {
        return all;
    };
    if !last.rest.is_empty() {
        return all;
    }
    NoteSplit {
        before: &pack[..pack.len() - more.len()],
        note: Some(last.contents),
    }
}

/// The bytes before the note, from the pack's first on; all, if there is none.
pub fn before_note<'a>(pack: &'a [u8]) -> &'a [u8]
    ensures told { result.now ≡ (take_note pack.now).before }
    ensures first { result.ref_ptr ≡ pack.entry.ref_ptr }
    ensures front { result.now ≡ take (length result.now) pack.now }
    ensures within { length result.now ≤ length pack.now }
{
    note_of(pack).before
}

// What stands before n bytes of operations: the field of the counts, and the next field's tag and length.
#[tactic(auto, unfolding(wire_theory::specs::Header::header_of))]
fn header_of(counts: Counts, n: usize) -> [u8; HEADER]
    ensures { result ≡ header_of counts n }
{
    let [v, w] = counts.vertices.to_be_bytes();
    let [t, u] = counts.triangles.to_be_bytes();
    let [p, q] = counts.places.to_be_bytes();
    let [l, m] = counts.loops.to_be_bytes();
    let [high, low] = ((n % 65536) as u16).to_be_bytes();
    [
        COUNTS_TAG,
        0,
        8,
        v,
        w,
        t,
        u,
        p,
        q,
        l,
        m,
        OPERATIONS_TAG,
        high,
        low,
    ]
}

/// Writes the header before n bytes of operations, if the buffer is long enough for it; it answers whether it is.
// The answer is a `bool`: there is no value beside it, and no refusal (packing tests 11 before).
#[tactic(auto, unfolding(crate::specs::Fields::headed))]
pub fn write_header(pack: &mut [u8], counts: Counts, n: usize) -> bool
    ensures { (result ≡ leb 14 (length pack.old)) × (pack.new ≡ headed pack.old counts n) }
{
    if pack.len() < HEADER {
        return false;
    }
    pack[..HEADER].copy_from_slice(&header_of(counts, n));
    true
}
