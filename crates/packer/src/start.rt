// A start: the lowest triangle left, when no loop is live.
ghost use Rattle.std.specs.Prelude.{◌≡◌, ◌+◌, ◌*◌, ◌≤◌, ◌<◌, MatchOption, length};
ghost use Rattle.rules.specs.Limits.{max_triangles};
ghost use Rattle.pack_theory.specs.Packing.Course.{renamed, numbered_three};
ghost use Rattle.pack_theory.specs.Packing.Steps.{Lowest, Renames, Resting, Starts, StepOf};
ghost use Rattle.pack_theory.specs.Packing.Order.{OrderLong, NotesOf};
ghost use Rattle.pack_theory.specs.Packing.Taken.{taken_of};

use crate::operate::{operate, ready_for};
use cells::{LoopMemory, LoopMemoryMut};
use cutborder::{CORE, Course, Flags};
use rules::Operation;
use rules::refusal::Refusal;

// The lowest triangle from k on that is not built, of n, if one is left.
fn lowest_left(built: &Flags, k: usize, n: usize) -> Option<usize>
    requires { (k ≤ n) × (n ≤ max_triangles) }
    ensures { MatchOption result (Lowest built.now k n n) (λ i. (i < n) × Lowest built.now k n i) }
{
    for i in k..n {
        if built[i] == 0 {
            return Some(i);
        }
    }
    None
}

// The loop of three places, the first of them e, gets the vertices p q r.
fn name_three(m: &mut [u16; CORE], e: u16, p: u16, q: u16, r: u16)
    requires { Renames m.old e }
    ensures { m.new ≡ renamed m.old e p q r }
{
    let f = m.after_of(e);
    let g = m.after_of(f);
    m.set_vertex(e, p);
    m.set_vertex(f, q);
    m.set_vertex(g, r);
}

// The vertices p q r get the next numbers, from k on.
fn give_three(numbering: &mut [u16], k: u16, p: u16, q: u16, r: u16)
    requires { (k < 65533) × (p < length numbering.old) × (q < length numbering.old) × (r < length numbering.old) }
    ensures { numbering.new ≡ numbered_three numbering.old k p q r }
{
    numbering[usize::from(p)] = k;
    numbering[usize::from(q)] = k + 1;
    numbering[usize::from(r)] = k + 2;
}

// Triangle k, the lowest left, is built as a loop of its own, and noted in the order.
fn start_at(
    list: &[u16],
    t: Course,
    k: usize,
    built: &mut Flags,
    order: &mut [u16],
    numbering: &mut [u16],
    m: &mut [u16; CORE],
) -> Result<(Operation, Course), Refusal>
    requires { Starts list.now t k built.old numbering.old m.old × OrderLong list.now order.old }
    ensures step { StepOf list.now t built.old numbering.old m.old (taken_of result) built.new
        numbering.new m.new }
    ensures order { NotesOf list.now t built.old numbering.old m.old (taken_of result)
        order.old order.new }
{
    let p = list[3 * k];
    let q = list[3 * k + 1];
    let r = list[3 * k + 2];
    let s = ready_for(t.front, 0);
    let after = operate(m, s, Operation::Start)?;
    built[k] = 1;
    // `as`: tried with usize::from, the proof did not close: the answers speak of the number itself.
    order[t.front.built as usize] = k as u16;
    name_three(m, after.loops.current, p, q, r);
    give_three(numbering, t.given, p, q, r);
    Ok((
        Operation::Start,
        Course {
            front: after,
            given: t.given + 3,
            lowest: (k + 1) as u16,
        },
    ))
}

// With no live loop and a triangle left: a start. (The lowest is always found.)
pub(crate) fn begin_piece(
    list: &[u16],
    t: Course,
    built: &mut Flags,
    order: &mut [u16],
    numbering: &mut [u16],
    m: &mut [u16; CORE],
) -> Result<(Operation, Course), Refusal>
    requires { Resting list.now t built.old numbering.old m.old × OrderLong list.now order.old }
    ensures step { StepOf list.now t built.old numbering.old m.old (taken_of result) built.new
        numbering.new m.new }
    ensures order { NotesOf list.now t built.old numbering.old m.old (taken_of result)
        order.old order.new }
{
    let n = list.len() / 3;
    // `as`: tried with usize::from, the proof did not close: the answers speak of the number itself.
    let Some(k) = lowest_left(built, t.lowest as usize, n) else {
        return Err(Refusal::TooManyPlaces);
    };
    start_at(list, t, k, built, order, numbering, m)
}
