// A building operation: a state is tested (21), the operation is decided, the edge rule is tested, and then it is done.
// What the contracts cite stands in state_theory/specs/Performing/.
ghost use Rattle.std.specs.Prelude.{◌≡◌, ℕ, ◌≤◌, ◌<◌, Ok};
ghost use Rattle.rules.specs.Limits.{max_places, max_loops};
ghost use Rattle.rules.specs.Operated.{performed_of};
ghost use Rattle.cutborder.specs.declared.Action.TheVariants.{Builds};
ghost use Rattle.border_theory.specs.Memory.Layout.{open_of};
ghost use Rattle.border_theory.specs.Memory.Moves.{marked_held};
ghost use Rattle.border_theory.specs.Memory.Decision.{decided, marked_front};
ghost use Rattle.border_theory.specs.Memory.Keeps.{Ready};
ghost use Rattle.state_theory.specs.Performing.Core.{OperatesOn, Open, MarkedIn, told_after};

use border::touches::{by_border, note, note_nothing, touched};
use border::triangles::put_triangle;
use border::{build, decide, mark};
use cutborder::{Action, Front, Memory, Plan};
use edges::edge_rule;
use rules::refusal::Refusal;
use rules::{Builder, Operation, Triangle};
use state::{close, open};

// Builds a planned triangle, unless the edge rule fails (18): into the buffer and the memory.
fn build_triangle(
    state: &mut Builder,
    o: Operation,
    f: Front,
    p: Plan,
    triangles: &mut [u16],
    m: &mut Memory,
) -> Result<Option<Triangle>, Refusal>
    requires { Open state.old triangles.old m.old f × (decided max_places f m.old o ≡ Ok (Builds p)) }
    ensures { OperatesOn state.old o triangles.old m.old max_places (performed_of state.new result) triangles.new
        (told_after result m.new) }
{
    if !edge_rule(triangles, f.built, p) {
        return Err(Refusal::EdgeRule);
    }
    let places = touched(m, f.loops, o, p.place);
    // `as`: tried with usize::from, the proof did not close: the answers speak of the number itself.
    put_triangle(triangles, f.built as usize, p.triangle);
    let built = build(m, f, o, p);
    *state = close(built, m);
    note(m, places, f.loops.free, built.loops.free);
    Ok(Some(p.triangle))
}

// Marks the current edge as border.
fn mark_border(state: &mut Builder, f: Front, m: &mut Memory)
    requires { Ready max_places f m.old × ((f.loops.live ≡ 0 → ⊥)
        × ((marked_front max_places f (marked_held max_places f.loops m.old).loops).loops.live ≤ max_loops)) }
    ensures { MarkedIn f m.old state.new m.new }
{
    let places = by_border(m, f.loops);
    let marked = mark(m, f);
    *state = close(marked, m);
    note(m, places, f.loops.free, marked.loops.free);
}

// Does the operation o on a state: 21, then 16 to 18, or the state after it.
fn operate(
    state: &mut Builder,
    o: Operation,
    triangles: &mut [u16],
    m: &mut Memory,
    n: usize,
) -> Result<Option<Triangle>, Refusal>
    requires { (n ≤ max_places) × ((p : ℕ) → p < max_places → open_of m.old p ≤ 1) }
    ensures { OperatesOn state.old o triangles.old m.old n (performed_of state.new result) triangles.new
        (told_after result m.new) }
{
    let f = open(*state, triangles, m, n)?;
    match decide(m, f, o)? {
        Action::Builds(p) => build_triangle(state, o, f, p, triangles, m),
        Action::Marks(_, _) => {
            mark_border(state, f, m);
            Ok(None)
        }
    }
}

// A building operation on a state, a triangle buffer and the n place records that m has, with room after them to work in: 21, then 16 to
// 18, or the state after it. A refusal leaves the state, the buffer and the records as they were.
pub fn operation_on(
    state: &mut Builder,
    op: Operation,
    triangles: &mut [u16],
    m: &mut Memory,
    n: usize,
) -> Result<Option<Triangle>, Refusal>
    requires { (n ≤ max_places) × ((p : ℕ) → p < max_places → open_of m.old p ≤ 1) }
    ensures { OperatesOn state.old op triangles.old m.old n (performed_of state.new result) triangles.new m.new }
{
    let done = operate(state, op, triangles, m, n);
    if done.is_err() {
        note_nothing(m);
    }
    done
}
