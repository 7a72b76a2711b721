// The packer's choice of the place of c, at an edge from a to b with the triangle b a c, where c has a place already.
// The meaning of the contracts stands in rules/specs/Choice.antt, pack_theory/specs/Choosing/ and specs/Ways.antt.
#![tactic(auto)]

mod name;
mod seek;
mod turn;

ghost use Rattle.std.specs.Prelude.{◌<◌, ◌≡◌};
ghost use Rattle.rules.specs.Limits.{max_places};
ghost use Rattle.rules.specs.Choice.{choose_place};
ghost use Rattle.border_theory.specs.Memory.Stands.{loops_in};
ghost use Rattle.pack_theory.specs.Choosing.Choosable.{unbuilt_of, Choosable};
ghost use Rattle.pack_theory.specs.Choosing.Seat.{seated_of};
ghost use Rattle.chooser.specs.Ways.{seat_on};

use crate::name::place_operation;
use crate::seek::seat_of;
use crate::turn::{Way, turn};
use corners::Links;
use cutborder::{Flags, Loops, Seat};
use rules::Operation;

// What a place is chosen from: the list and its chains, the triangles that are built, the memory and its loops, and a, b and c.
#[derive(Clone, Copy)]
struct Choice<'a> {
    list: &'a [u16],
    chains: &'a Links,
    built: &'a Flags,
    m: &'a [u16],
    l: Loops,
    a: u16,
    b: u16,
    c: u16,
}

impl<'a> Choice<'a> {
    // Where the open edge starts at which turning that way from the triangle ends.
    fn seat(&self, way: Way) -> Option<Seat>
        requires { Choosable self.now.list.now self.now.chains.now self.now.built.now self.now.m.now self.now.l self.now.a
            self.now.b self.now.c }
        ensures { seated_of result ≡ seat_on way self.now.list.now self.now.built.now self.now.m.now self.now.l self.now.a
            self.now.b self.now.c }
    {
        let last = turn(
            self.list,
            self.chains,
            self.built,
            way,
            self.c,
            way.first(self.a, self.b),
        )?;
        let (x, y) = way.edge(self.c, last);
        seat_of(self.m, self.l, x, y)
    }
}

// The place after place i, in a ring of k places.
fn following(k: u16, i: u16) -> u16
    requires { i < k }
    ensures { result ≡ Rattle.rules.specs.Choice.following k i }
{
    if i + 1 == k { 0 } else { i + 1 }
}

// The operation for the place of c from whose open edges the triangle b a c is reached by turning about c, through triangles
// that are not built. An edge that comes into c ends at that place, one that leaves c starts there. (The packer has the parts of
// a choice one by one, since it writes some of them between two choices.)
pub fn choose_place(
    list: &[u16],
    chains: &Links,
    built: &Flags,
    m: &[u16],
    l: Loops,
    a: u16,
    b: u16,
    c: u16,
) -> Operation
    requires { Choosable list.now chains.now built.now m.now l a b c }
    ensures { result ≡ choose_place a b c (unbuilt_of built.now list.now) (loops_in max_places l m.now) }
{
    let choice = Choice {
        list,
        chains,
        built,
        m,
        l,
        a,
        b,
        c,
    };
    if let Some(s) = choice.seat(Way::Back) {
        return place_operation(m, l, s.number, following(s.size, s.index));
    }
    if let Some(s) = choice.seat(Way::On) {
        return place_operation(m, l, s.number, s.index);
    }
    // Never met in an accepted list; the definition has it.
    Operation::Border
}
