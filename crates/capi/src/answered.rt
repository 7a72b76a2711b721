// Answers as numbers: 0 for acceptance, else the refusal's, which leaves a caller's memory for results as it was, but for where
// a note stands. Its contracts cite specs/Answered.antt.
// One function for each kind of call, alike in shape: each says in its clause what it writes, and a caller in C gets 0 or the number.
ghost use Rattle.std.specs.Prelude.{◌≡◌};
ghost use Rattle.rules.specs.Answer.{checked_answer, begun_answer, operated_answer, finished_answer, packed_answer, unpacked_answer};
ghost use Rattle.rules.specs.Benched.{benched_of};
ghost use Rattle.rules.specs.Build.{begun_of};
ghost use Rattle.rules.specs.Checked.{checked_of};
ghost use Rattle.rules.specs.Finished.{finished_of};
ghost use Rattle.rules.specs.Measured.{measured_of};
ghost use Rattle.rules.specs.Operated.{operated_of};
ghost use Rattle.rules.specs.Packed.{packed_of};
ghost use Rattle.rules.specs.Reading.{measured_answer, measured_six};
ghost use Rattle.rules.specs.Refusal.{number_of as refusal_number};
ghost use Rattle.rules.specs.Unpacked.{unpacked_of};
ghost use Rattle.capi.specs.Answered.{number_of, size_after, model_after, totals_after, euler_after, six_after, built_after, kept_or};

use rules::refusal::Refusal;
use rules::{Builder, Located, Model, Span, Totals, Triangle};

// A refusal's number.
fn code(e: Refusal) -> u32
    ensures { result ≡ refusal_number e }
{
    u32::from(e.number())
}

pub(crate) fn checked(r: Result<(), Refusal>) -> u32
    ensures { result ≡ number_of (checked_answer (checked_of r)) }
{
    match r {
        Ok(()) => 0,
        Err(e) => code(e),
    }
}

// A packing: the pack's length.
pub(crate) fn packed(r: Result<u32, Refusal>, size: &mut u32) -> u32
    ensures { (result ≡ number_of (packed_answer (packed_of r)))
        × (size.new ≡ size_after size.old (packed_answer (packed_of r))) }
{
    match r {
        Ok(n) => {
            *size = n;
            0
        }
        Err(e) => code(e),
    }
}

// An unpacking: vertices, triangles, edges, rims and unions; and the Euler number.
pub(crate) fn unpacked(r: Result<Model, Refusal>, model: &mut [u16; 5], euler: &mut i32) -> u32
    ensures { (result ≡ number_of (unpacked_answer (unpacked_of r)))
        × ((model.new ≡ model_after model.old (unpacked_answer (unpacked_of r)))
        × (euler.new ≡ euler_after euler.old (unpacked_answer (unpacked_of r)))) }
{
    match r {
        Ok(m) => {
            let t = m.totals;
            *model = [m.vertices, m.triangles, t.edges, t.rims, t.unions];
            *euler = t.euler;
            0
        }
        Err(e) => code(e),
    }
}

// The volume call: the same, and six times the volume.
pub(crate) fn measured(
    r: Result<(Model, i64), Refusal>,
    model: &mut [u16; 5],
    euler: &mut i32,
    six: &mut i64,
) -> u32
    ensures { (result ≡ number_of (measured_answer (measured_of r)))
        × ((model.new ≡ model_after model.old (measured_answer (measured_of r)))
        × ((euler.new ≡ euler_after euler.old (measured_answer (measured_of r)))
        × (six.new ≡ six_after six.old (measured_six (measured_of r))))) }
{
    match r {
        Ok((m, z)) => {
            *six = z;
            unpacked(Ok(m), model, euler)
        }
        Err(e) => code(e),
    }
}

// The bench reader: as an unpacking; and, accepted or not, where the note stands in the pack and how many bytes it has.
pub(crate) fn benched(
    r: Result<Located, Refusal>,
    model: &mut [u16; 5],
    euler: &mut i32,
    start: &mut usize,
    length: &mut usize,
) -> u32
    ensures { (result ≡ number_of (unpacked_answer (benched_of r).answer))
        × ((model.new ≡ model_after model.old (unpacked_answer (benched_of r).answer))
        × ((euler.new ≡ euler_after euler.old (unpacked_answer (benched_of r).answer))
        × ((start.new ≡ (benched_of r).start) × (length.new ≡ (benched_of r).length)))) }
{
    match r {
        Ok(x) => {
            let note = x.note.unwrap_or(Span {
                start: 0,
                length: 0,
            });
            *start = note.start;
            *length = note.length;
            unpacked(Ok(x.model), model, euler)
        }
        Err(e) => {
            *start = 0;
            *length = 0;
            code(e)
        }
    }
}

// A beginning: the new state, where it is accepted.
pub(crate) fn begun(r: Result<Builder, Refusal>, state: &mut Builder) -> u32
    ensures { (result ≡ number_of (begun_answer (begun_of r)))
        × (state.new ≡ kept_or state.old (begun_of r).answer (begun_of r).state) }
{
    match r {
        Ok(b) => {
            *state = b;
            0
        }
        Err(e) => code(e),
    }
}

// An operation: 1 and the triangle that it built, or four zeros where it marked an edge.
pub(crate) fn performed(r: Result<Option<Triangle>, Refusal>, built: &mut [u16; 4]) -> u32
    ensures { (result ≡ number_of (operated_answer (operated_of r)))
        × (built.new ≡ built_after built.old (operated_answer (operated_of r))) }
{
    match r {
        Ok(Some(t)) => {
            *built = [1, t.p, t.q, t.r];
            0
        }
        Ok(None) => {
            *built = [0; 4];
            0
        }
        Err(e) => code(e),
    }
}

// A finish: edges, rims and unions; and the Euler number.
pub(crate) fn finished(r: Result<Totals, Refusal>, totals: &mut [u16; 3], euler: &mut i32) -> u32
    ensures { (result ≡ number_of (finished_answer (finished_of r)))
        × ((totals.new ≡ totals_after totals.old (finished_answer (finished_of r)))
        × (euler.new ≡ euler_after euler.old (finished_answer (finished_of r)))) }
{
    match r {
        Ok(t) => {
            *totals = [t.edges, t.rims, t.unions];
            *euler = t.euler;
            0
        }
        Err(e) => code(e),
    }
}
