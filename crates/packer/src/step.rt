// One step of a packing, and the run of them. What a packing works on is passed part by part. `Held` holds between steps only, and the
// kit may require a ghost field at each write through a `&mut` beside it. No trial of a struct is on record.
ghost use Rattle.std.specs.Prelude.{false, ◌≡◌, ◌≤◌, ◌<◌, length};
ghost use Rattle.border_theory.specs.Memory.Finish.{is_complete};
ghost use Rattle.pack_theory.specs.Packing.Course.{Held, given_by, numbers_by};
ghost use Rattle.pack_theory.specs.Packing.Order.{OrderLong, NotesOf, ListsOf};
ghost use Rattle.pack_theory.specs.Packing.Steps.{Alive, StepOf, RunOf};
ghost use Rattle.pack_theory.specs.Packing.Taken.{taken_of};
ghost use Rattle.pack_theory.specs.Packing.Ran.{ran_of};

use crate::choose::choose_move;
use crate::operate::{operate, ready_for};
use crate::start::begin_piece;
use border::finish::is_complete;
use corners::Links;
use cutborder::{CORE, Course, Flags};
use rules::Operation;
use rules::refusal::Refusal;
use wire::fields::HEADER;
use wire::writer::write_operation;

// The bit position of the first operation.
const FIRST: usize = 8 * HEADER;

// The next number k is given to the vertex c, or not: how many are given then.
fn give(numbering: &mut [u16], fresh: bool, c: u16, k: u16) -> u16
    requires { (c < length numbering.old) × (k < 65535) }
    ensures count { result ≡ given_by fresh k }
    ensures numbers { numbering.new ≡ numbers_by fresh numbering.old c k }
{
    if !fresh {
        return k;
    }
    numbering[usize::from(c)] = k;
    k + 1
}

// A step at a live loop: what is taken at its current edge.
fn go_on(
    list: &[u16],
    chains: &Links,
    t: Course,
    built: &mut Flags,
    order: &mut [u16],
    numbering: &mut [u16],
    m: &mut [u16; CORE],
) -> Result<(Operation, Course), Refusal>
    requires { Alive list.now chains.now t built.old numbering.old m.old × OrderLong list.now order.old }
    ensures step { StepOf list.now t built.old numbering.old m.old (taken_of result) built.new
        numbering.new m.new }
    ensures order { NotesOf list.now t built.old numbering.old m.old (taken_of result)
        order.old order.new }
{
    let k = t.front.built;
    let next = choose_move(list, chains, built, order, k, numbering, m, t.front.loops);
    let s = ready_for(t.front, next.vertex);
    let front = operate(m, s, next.operation)?;
    let given = give(numbering, next.fresh, next.vertex, t.given);
    Ok((next.operation, Course { front, given, ..t }))
}

// One step, where something is left to do: 9 or 10, or the operation that is taken and the state after it.
pub fn step(
    list: &[u16],
    chains: &Links,
    t: Course,
    built: &mut Flags,
    order: &mut [u16],
    numbering: &mut [u16],
    m: &mut [u16; CORE],
) -> Result<(Operation, Course), Refusal>
    requires { Held list.now chains.now t built.old numbering.old m.old × (is_complete t.front ≡ false)
        × OrderLong list.now order.old }
    ensures step { StepOf list.now t built.old numbering.old m.old (taken_of result) built.new
        numbering.new m.new }
    ensures order { NotesOf list.now t built.old numbering.old m.old (taken_of result)
        order.old order.new }
{
    if t.front.loops.live == 0 {
        return begin_piece(list, t, built, order, numbering, m);
    }
    go_on(list, chains, t, built, order, numbering, m)
}

// Steps until nothing is left to do, by at most `budget` of them, each operation written after the header's bytes in the buffer
// as long as it fits: 9 or 10, or the state then and the bit position after the last operation.
pub fn run(
    list: &[u16],
    chains: &Links,
    start: Course,
    budget: usize,
    built: &mut Flags,
    order: &mut [u16],
    numbering: &mut [u16],
    buffer: &mut [u8],
    m: &mut [u16; CORE],
) -> Result<(Course, usize), Refusal>
    requires { Held list.now chains.now start built.old numbering.old m.old × (budget ≤ 32769)
        × OrderLong list.now order.old }
    ensures run { RunOf list.now budget start built.old numbering.old buffer.old
        m.old (ran_of result) built.new numbering.new buffer.new m.new }
    ensures order { ListsOf list.now budget start built.old numbering.old m.old (ran_of result)
        order.old order.new }
{
    let mut t = start;
    let mut at = FIRST;
    for _ in 0..budget {
        if is_complete(t.front) {
            return Ok((t, at));
        }
        let (o, after) = step(list, chains, t, built, order, numbering, m)?;
        at = write_operation(buffer, at, o).next;
        t = after;
    }
    Ok((t, at))
}
