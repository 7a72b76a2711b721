// What the packer takes at the current edge of a live loop.
ghost use Rattle.std.specs.Prelude.{◌≡◌, ◌<◌, length};
ghost use Rattle.pack_theory.specs.Choosing.Choosable.{Choosable};
ghost use Rattle.pack_theory.specs.Packing.Course.{is_numbered, placed_by, move_of, flags_of, Chooses};
ghost use Rattle.pack_theory.specs.Packing.Order.{order_of, Notable};

use cells::LoopMemory;
use chooser::choose_place;
use corners::{Links, across};
use cutborder::{CORE, Flags, Loops, Move};
use rules::Operation;

// The entry of a vertex that has no number yet.
// A number and no `Option`: the entries are 16-bit numbers that C lends; `unnumbered` of pack_theory is this one.
pub(crate) const UNNUMBERED: u16 = 65535;

// Whether vertex c has a new number.
fn is_numbered(numbering: &[u16], c: u16) -> bool
    requires { c < length numbering.now }
    ensures { result ≡ is_numbered numbering.now c }
{
    numbering[usize::from(c)] != UNNUMBERED
}

// With the triangle b a c: new, if c has no number yet, else the operation at its right place. (Both have a vertex, so that `fresh`
// stays beside it and is no Option.)
fn place_move(
    list: &[u16],
    chains: &Links,
    built: &Flags,
    numbering: &[u16],
    m: &[u16; CORE],
    l: Loops,
    a: u16,
    b: u16,
    c: u16,
) -> Move
    requires { (c < length numbering.now) × Choosable list.now chains.now built.now m.now l a b c }
    ensures { result ≡ placed_by (is_numbered numbering.now c) list.now built.now m.now l a b c }
{
    if is_numbered(numbering, c) {
        let operation = choose_place(list, chains, built, m, l, a, b, c);
        return Move {
            operation,
            vertex: c,
            fresh: false,
        };
    }
    Move {
        operation: Operation::New,
        vertex: c,
        fresh: true,
    }
}

// What is taken at the current edge, from a to b: border, if no triangle has b→a. The flag of one that has is set, and its number is
// the order's entry k.
pub(crate) fn choose_move(
    list: &[u16],
    chains: &Links,
    built: &mut Flags,
    order: &mut [u16],
    k: u16,
    numbering: &[u16],
    m: &[u16; CORE],
    l: Loops,
) -> Move
    requires { Chooses list.now chains.now built.old numbering.now m.now l × Notable list.now order.old k m.now l }
    ensures taken { result ≡ move_of list.now built.old numbering.now m.now l }
    ensures flags { built.new ≡ flags_of list.now built.old m.now l }
    ensures order { order.new ≡ order_of list.now order.old k m.now l }
{
    let f = m.after_of(l.current);
    let a = m.vertex_of(l.current);
    let b = m.vertex_of(f);
    let Some(found) = across(list, chains, b, a) else {
        // A border has no vertex: `move_by` of pack_theory has 0 there, for the step hands on a vertex with every operation.
        return Move {
            operation: Operation::Border,
            vertex: 0,
            fresh: false,
        };
    };
    // `as`: tried with usize::from, the proof did not close: the answers of `choose_move` speak of the numbers themselves.
    built[found.triangle as usize] = 1;
    order[k as usize] = found.triangle;
    place_move(list, chains, built, numbering, m, l, a, b, found.vertex)
}
