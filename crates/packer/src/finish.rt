// The end of a packing: 11, the header, and the answer.
ghost use Rattle.std.specs.Prelude.{◌≡◌, ◌≤◌, Err, length};
ghost use Rattle.rules.specs.Packed.{packed_of};
ghost use Rattle.rules.specs.Buffer.{zeroed};
ghost use Rattle.rules.specs.Limits.{max_triangles, max_vertices};
ghost use Rattle.pack_theory.specs.Packing.Finish.{counts_at, finish_answer, finish_numbers, finish_pack, Sized};
ghost use Rattle.pack_theory.specs.Packing.Ran.{ran_of};

use cutborder::Course;
use rules::Counts;
use rules::refusal::Refusal;
use wire::fields::{HEADER, write_header};

// The counts that the pack of v vertices and k triangles states.
fn counts_at(v: usize, k: usize, t: Course) -> Counts
    requires { (v ≤ max_vertices) × (k ≤ max_triangles) }
    ensures { result ≡ counts_at v k t }
{
    let peaks = t.front.peaks;
    Counts {
        vertices: v as u16,
        triangles: k as u16,
        places: peaks.places,
        loops: peaks.loops,
    }
}

// A refusal, one of 9 to 11: the first v numbering entries, the first k order entries and the whole pack buffer are zero.
fn refuse(
    e: Refusal,
    v: usize,
    k: usize,
    numbering: &mut [u16],
    buffer: &mut [u8],
    order: &mut [u16],
) -> Result<u32, Refusal>
    requires { (v ≤ length numbering.old) × (k ≤ length order.old) }
    ensures answer { result ≡ Err e }
    ensures numbers { numbering.new ≡ zeroed v numbering.old }
    ensures pack { buffer.new ≡ zeroed (length buffer.old) buffer.old }
    ensures order { order.new ≡ zeroed k order.old }
{
    numbering[..v].fill(0);
    buffer.fill(0);
    order[..k].fill(0);
    Err(e)
}

// The answer after a run: its refusal, or 11, or the pack's length, with the header written.
pub(crate) fn finish(
    v: usize,
    k: usize,
    end: Result<(Course, usize), Refusal>,
    numbering: &mut [u16],
    buffer: &mut [u8],
    order: &mut [u16],
) -> Result<u32, Refusal>
    requires { (v ≤ max_vertices) × (k ≤ max_triangles) × (v ≤ length numbering.old) × (k ≤ length order.old)
        × Sized (ran_of end) }
    ensures answer { packed_of result ≡ finish_answer (ran_of end) (length buffer.old) }
    ensures numbers { numbering.new ≡ finish_numbers (ran_of end) v (length buffer.old) numbering.old }
    ensures pack { buffer.new ≡ finish_pack (ran_of end) v k buffer.old }
    ensures order { order.new ≡ finish_numbers (ran_of end) k (length buffer.old) order.old }
{
    let (t, at) = match end {
        Ok(ended) => ended,
        Err(e) => return refuse(e, v, k, numbering, buffer, order),
    };
    let n = (at + 7) / 8;
    if buffer.len() < n {
        return refuse(Refusal::PackTooLong, v, k, numbering, buffer, order);
    }
    let counts = counts_at(v, k, t);
    write_header(buffer, counts, n - HEADER);
    Ok(n as u32)
}
