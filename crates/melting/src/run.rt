// One operation of a pack, read and done, and the run of them until the model is complete.
ghost use Rattle.std.specs.Prelude.{◌≡◌, false, ◌<◌, length};
ghost use Rattle.border_theory.specs.Memory.Finish.{is_complete};
ghost use Rattle.melting_theory.specs.Runs.{Held, Weighable, Weighs, WeighsTo, TurnedOn, Comes, Begins};

use border::finish::is_complete;
use border::{begin, build, decide, mark};
use cells::BYTES;
use cutborder::{Action, Melt};
use determinants::weigh;
use rules::refusal::Refusal;
use rules::{Counts, Triangle};
use wire::reader::operation_at;

// The sum with triangle t, where there are positions.
fn weighed(field: &[u8], t: Triangle, six: i64) -> i64
    requires { Weighs field.now t six }
    ensures { WeighsTo field.now t six result }
{
    if field.len() == 0 {
        return six;
    }
    weigh(field, t, six)
}

// The next operation, read and done: further on and in the bytes.
fn turn(ops: &[u8], field: &[u8], p: Melt, m: &mut [u8; BYTES]) -> Result<Melt, Refusal>
    requires { Held field.now p m.old × Weighable p.front.stated field.now × (is_complete p.front ≡ false) × (length ops.now < 65536) }
    ensures { TurnedOn ops.now field.now p m.old result m.new }
{
    let Some((o, next)) = operation_at(ops, p.at) else {
        return Err(Refusal::EndsEarly);
    };
    match decide(m, p.front, o)? {
        Action::Builds(t) => {
            let six = weighed(field, t.triangle, p.six);
            Ok(Melt {
                at: next,
                front: build(m, p.front, o, t),
                six,
            })
        }
        Action::Marks(_, _) => Ok(Melt {
            at: next,
            front: mark(m, p.front),
            six: p.six,
        }),
    }
}

// Operations from the first bit on until the model is complete or one is at fault. Each turn reads further on, so that the last line is
// never met.
pub(crate) fn run(
    ops: &[u8],
    field: &[u8],
    stated: Counts,
    m: &mut [u8; BYTES],
) -> Result<Melt, Refusal>
    requires { Begins stated ops.now field.now m.old }
    ensures { Comes stated ops.now field.now result m.new }
{
    let mut p = Melt {
        at: 0,
        front: begin(m, stated),
        six: 0,
    };
    for _ in 0..8 * ops.len() + 1 {
        if is_complete(p.front) {
            return Ok(p);
        }
        p = turn(ops, field, p, &mut *m)?;
    }
    Err(Refusal::EndsEarly)
}
