// An operation on the loops, whose vertices are the list's own numbers.
ghost use Rattle.std.specs.Prelude.{◌≡◌};
ghost use Rattle.rules.specs.Refusal.{number_of};
ghost use Rattle.rules.specs.Limits.{max_places};
ghost use Rattle.border_theory.specs.Memory.Keeps.{Ready};
ghost use Rattle.pack_theory.specs.Packing.Doing.{readied, refusal_at, done_of, memory_of};
ghost use Rattle.pack_theory.specs.Packing.Done.{done_from};

use border::verdict::{propose, test_room};
use border::{build, mark};
use cutborder::{Action, CORE, Front, PLACES};
use rules::Operation;
use rules::refusal::Refusal;

// The state in which `new` places the vertex c; what a packing does not count is zero.
pub(crate) fn ready_for(f: Front, c: u16) -> Front
    ensures { result ≡ readied f c }
{
    Front {
        used: c,
        edges: 0,
        starts: 0,
        unions: 0,
        rims: 0,
        ..f
    }
}

// 9 where no place is free, else 10.
fn refusal_at(free: u16) -> Refusal
    ensures { number_of result ≡ refusal_at free }
{
    if free == 0 {
        Refusal::TooManyPlaces
    } else {
        Refusal::TooManyLoops
    }
}

// Does the operation o: 9 or 10, or the state after it. It is decided as by `border::decide`, in two steps: handed over whole, the state
// would be copied, and packing take a quarter longer.
#[tactic(auto, using(border_theory::proofs::Memory::Ready::ready_proposes, border_theory::proofs::Memory::Ready::ready_free, border_theory::proofs::Memory::Next::marks_live), unfolding(border_theory::specs::Memory::Decision::decided, border_theory::specs::Memory::Decision::proposed, pack_theory::specs::Packing::Doing::done_of, pack_theory::specs::Packing::Doing::memory_of))]
pub(crate) fn operate(m: &mut [u16; CORE], s: Front, o: Operation) -> Result<Front, Refusal>
    requires { Ready max_places s m.old }
    ensures done { done_from result ≡ done_of s m.old o }
    ensures memory { m.new ≡ memory_of s m.old o }
{
    let proposed = propose(m, s.loops, s.used, o);
    match test_room(PLACES, s, proposed) {
        Err(_) => Err(refusal_at(s.loops.free)),
        Ok(Action::Builds(p)) => Ok(build(m, s, o, p)),
        Ok(Action::Marks(_, _)) => Ok(mark(m, s)),
    }
}
