// The places whose records an operation writes, and the note of them in the plain memory: from it the records that were touched are
// written back to the lent list, and no other. The contracts cite border_theory/specs/Memory/Touched.antt.
// `by_forward` and `by_backward` stay two, as `touched_by` has them: they read other neighbours, so that a parameter would be a branch in
// each line. The loop is made live in each, since each operation asks another part of `Performs`: a start has no `Near` at all.
ghost use Rattle.std.specs.Prelude.{◌≡◌, ◌≤◌, []};
ghost use Rattle.rules.specs.declared.Operation.TheVariants as Operations;
ghost use Rattle.border_theory.specs.Memory.Near.{Near, Doubles, Starts};
ghost use Rattle.border_theory.specs.Memory.Performs.{Performs};
ghost use Rattle.border_theory.specs.Memory.Touched.{touched_by, listed, noted};

use cells::LoopMemory;
use cutborder::{FREED, LINKED, Loops, Memory, Touched};
use rings::live::Live;
use rules::Operation;

// Where the places are noted, after their count, and where the freed ones end. A fixed row of numbers, since that is what stands in the
// plain memory and `noted` of border_theory/specs/Memory/Touched tells of it.
const FIRST: usize = LINKED + 1;

const SECOND: usize = LINKED + 2;

const THIRD: usize = LINKED + 3;

const FOURTH: usize = LINKED + 4;

const FIFTH: usize = LINKED + 5;

const FREED_END: usize = FREED + 1;

// No place.
const NOTHING: Touched = Touched {
    count: 0,
    first: 0,
    second: 0,
    third: 0,
    fourth: 0,
    fifth: 0,
};

// New: the current place, the next one, and the new one between them.
fn by_new<M: LoopMemory>(m: &M, l: Loops) -> Touched
    requires { Near (M.places m.now) l (M.numbers m.now) × (1 ≤ l.free) }
    ensures { result ≡ listed (touched_by (M.places m.now) l (M.numbers m.now) Operations.New 0) }
{
    let live = Live {
        memory: m,
        loops: l,
    };
    Touched {
        count: 3,
        first: live.current(),
        second: live.next(),
        third: m.free_at(l.free, 1),
        ..NOTHING
    }
}

// Forward: the current place, and the one after the next.
fn by_forward<M: LoopMemory>(m: &M, l: Loops) -> Touched
    requires { Near (M.places m.now) l (M.numbers m.now) }
    ensures { result ≡ listed (touched_by (M.places m.now) l (M.numbers m.now) Operations.Forward 0) }
{
    let live = Live {
        memory: m,
        loops: l,
    };
    Touched {
        count: 2,
        first: live.current(),
        second: live.second(),
        ..NOTHING
    }
}

// Backward: the place before the current one, and the next one.
fn by_backward<M: LoopMemory>(m: &M, l: Loops) -> Touched
    requires { Near (M.places m.now) l (M.numbers m.now) }
    ensures { result ≡ listed (touched_by (M.places m.now) l (M.numbers m.now) Operations.Backward 0) }
{
    let live = Live {
        memory: m,
        loops: l,
    };
    Touched {
        count: 2,
        first: live.last(),
        second: live.next(),
        ..NOTHING
    }
}

/// Border: the place before the current one, this one, and the two after it.
pub fn by_border<M: LoopMemory>(m: &M, l: Loops) -> Touched
    requires { Near (M.places m.now) l (M.numbers m.now) }
    ensures { result ≡ listed (touched_by (M.places m.now) l (M.numbers m.now) Operations.Border 0) }
{
    let live = Live {
        memory: m,
        loops: l,
    };
    Touched {
        count: 4,
        first: live.last(),
        second: live.current(),
        third: live.next(),
        fourth: live.second(),
        ..NOTHING
    }
}

// Split and union: the current place, the next one, c's place, the one before it, and c's second place.
fn by_double<M: LoopMemory>(m: &M, l: Loops, c: u16) -> Touched
    requires { Near (M.places m.now) l (M.numbers m.now) × Doubles (M.places m.now) l (M.numbers m.now) c }
    ensures { result ≡ listed (touched_by (M.places m.now) l (M.numbers m.now) (Operations.Split 0) c) }
{
    let live = Live {
        memory: m,
        loops: l,
    };
    Touched {
        count: 5,
        first: live.current(),
        second: live.next(),
        third: c,
        fourth: m.before_of(c),
        fifth: m.free_at(l.free, 1),
    }
}

// Start: three new places.
fn by_start<M: LoopMemory>(m: &M, l: Loops) -> Touched
    requires { Starts (M.places m.now) l (M.numbers m.now) }
    ensures { result ≡ listed (touched_by (M.places m.now) l (M.numbers m.now) Operations.Start 0) }
{
    Touched {
        count: 3,
        first: m.free_at(l.free, 1),
        second: m.free_at(l.free, 2),
        third: m.free_at(l.free, 3),
        ..NOTHING
    }
}

/// The places whose records the operation o would write, where c is its plan's place.
pub fn touched<M: LoopMemory>(m: &M, l: Loops, o: Operation, c: u16) -> Touched
    requires { Performs (M.places m.now) l (M.numbers m.now) 0 o c }
    ensures { result ≡ listed (touched_by (M.places m.now) l (M.numbers m.now) o c) }
{
    match o {
        Operation::New => by_new(m, l),
        Operation::Forward => by_forward(m, l),
        Operation::Backward => by_backward(m, l),
        Operation::Border => by_border(m, l),
        Operation::Split(_) => by_double(m, l, c),
        Operation::Close => NOTHING,
        Operation::Union(_, _) => by_double(m, l, c),
        Operation::Start => by_start(m, l),
    }
}

/// Notes the places t, whose records are to be linked, and the part of the stack from k to l, where those stand that are to be freed.
#[tactic(auto, unfolding(border_theory::specs::Memory::Touched::noted))]
pub fn note(m: &mut Memory, t: Touched, k: u16, l: u16)
    ensures { m.new ≡ noted m.old t k l }
{
    m[LINKED] = t.count;
    m[FIRST] = t.first;
    m[SECOND] = t.second;
    m[THIRD] = t.third;
    m[FOURTH] = t.fourth;
    m[FIFTH] = t.fifth;
    m[FREED] = k;
    m[FREED_END] = l;
}

/// Notes that nothing was touched.
pub fn note_nothing(m: &mut Memory)
    ensures { m.new ≡ noted m.old (listed []) 0 0 }
{
    note(m, NOTHING, 0, 0);
}
