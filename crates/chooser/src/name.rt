// Which operation a place names: union in a waiting loop; in the current one close, forward, backward or split.
ghost use Rattle.std.specs.Prelude.{◌≡◌};
ghost use Rattle.border_theory.specs.Memory.Layout.{before_of, after_of};
ghost use Rattle.border_theory.specs.Memory.Decision.{is_open_at};
ghost use Rattle.pack_theory.specs.Choosing.Seeking.{operation_by, Seekable};

use cells::plain::{after_of, before_of, is_open};
use cutborder::Loops;
use rules::Operation;

// The operation for place i of loop w, 0 the current one, which has k places: u tells whether the edge after f is open, v
// whether the edge into e is. A split counts its places from f on.
#[tactic(auto, unfolding(pack_theory::specs::Choosing::Seeking::operation_by))]
fn operation_for(k: u16, u: bool, v: bool, w: u16, i: u16) -> Operation
    ensures { result ≡ operation_by k u v w i }
{
    if w != 0 {
        Operation::Union(w, i)
    } else if k == 3 && u && v {
        Operation::Close
    } else if i == 2 && u {
        Operation::Forward
    } else if usize::from(i) + 1 == usize::from(k) && v {
        Operation::Backward
    } else {
        Operation::Split(i.saturating_sub(1))
    }
}

// The operation for place i of loop w, by the edges next to the current one.
pub(crate) fn place_operation(m: &[u16], l: Loops, w: u16, i: u16) -> Operation
    requires { Seekable l m.now }
    ensures { result ≡ operation_by l.size (is_open_at m.now (after_of m.now l.current))
        (is_open_at m.now (before_of m.now l.current)) w i }
{
    let u = is_open(m, after_of(m, l.current));
    let v = is_open(m, before_of(m, l.current));
    operation_for(l.size, u, v, w, i)
}
