// The bench reader: a pack is unpacked, and where its note stands is told, if it has one and is accepted.
ghost use Rattle.std.specs.Prelude.{true, ◌≡◌, ◌≤◌, IfOk, IfSome};
ghost use Rattle.rules.specs.Benched.{benched_of};
ghost use Rattle.rules.specs.Note.{note_fits, take_note};
ghost use Rattle.notes_theory.specs.Unpacking.{BenchedOn, Spanned, cleared_bench};

use crate::unpacking::unpack_noted_on;
use rules::refusal::Refusal;
use rules::{Located, Span};
use wire::fields::note_of;

// Where the note of some bytes stands, if there is one. It fits, so that it is not empty.
fn note_span(pack: &[u8]) -> Option<Span>
    requires { note_fits (take_note pack.now).note ≡ true }
    ensures told { Spanned pack.now result }
    ensures some { IfSome result (λ s. 1 ≤ s.length) }
{
    let note = note_of(pack).note?;
    Some(Span {
        start: pack.len() - note.len(),
        length: note.len(),
    })
}

// Unpacks any bytes into any triangle buffer, where n place records were lent, and tells where the note stands in them. A
// note that is told of has a byte or more.
pub fn bench_on(pack: &[u8], triangles: &mut [u16], n: usize) -> Result<Located, Refusal>
    ensures told { BenchedOn pack.now triangles.old n (benched_of result) triangles.new }
    ensures some { IfOk result (λ x. IfSome x.note (λ s. 1 ≤ s.length)) }
{
    let model = unpack_noted_on(pack, triangles, n)?;
    Ok(Located {
        model,
        note: note_span(pack),
    })
}

// How many place records the bench reader clears, read off its answer: as many as unpacking.
pub fn cleared(r: &Result<Located, Refusal>) -> usize
    ensures { result ≡ cleared_bench (benched_of r.now) }
{
    match r {
        Ok(located) => unpacker::cleared(&Ok(located.model)),
        Err(e) => unpacker::cleared(&Err(*e)),
    }
}
