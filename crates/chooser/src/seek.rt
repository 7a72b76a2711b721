// Looking for an open edge in the memory. Where forward, backward or close is right it is found at once, else by walking.
ghost use Rattle.std.specs.Prelude.{ℕ, ◌-◌, ◌<◌, ◌≡◌};
ghost use Rattle.border_theory.specs.Memory.Layout.{walked};
ghost use Rattle.pack_theory.specs.Choosing.Seat.{seated_of};
ghost use Rattle.pack_theory.specs.Choosing.Seeking.{starts_at, gone_by, waiting_seat, walked_seat, seat_in, Inside, Seekable};

use cells::plain::{after_of, before_of, is_open, place_at, size_at, vertex_of};
use cutborder::{Loops, PLACES, Seat};

// Whether the open edge x→y starts at place p.
#[tactic(auto, unfolding(pack_theory::specs::Choosing::Seeking::starts_at))]
fn is_start(m: &[u16], p: u16, x: u16, y: u16) -> bool
    requires { Inside m.now p }
    ensures { result ≡ starts_at m.now p x y }
{
    is_open(m, p) && vertex_of(m, p) == x && vertex_of(m, after_of(m, p)) == y
}

// How many places are gone by, from place p on, where the open edge x→y starts; k if it starts at none of these k places.
fn count_to(m: &[u16], k: u16, p: u16, x: u16, y: u16) -> u16
    requires { (j : ℕ) → j < k → Inside m.now (walked m.now j p) }
    ensures { result ≡ gone_by m.now k 0 p x y }
{
    let mut at = p;
    for i in 0..k {
        if is_start(m, at, x, y) {
            return i;
        }
        at = after_of(m, at);
    }
    k
}

// Along the waiting loops, the latest first, which has number 1.
fn waiting_seat(m: &[u16], l: Loops, x: u16, y: u16) -> Option<Seat>
    requires { Seekable l m.now }
    ensures { seated_of result ≡ waiting_seat m.now (l.live - 1) 1 x y }
{
    for w in 1..l.live {
        let size = size_at(m, PLACES, l.live - w - 1);
        let first = place_at(m, PLACES, l.live - w - 1);
        let index = count_to(m, size, first, x, y);
        if index < size {
            return Some(Seat {
                number: w,
                size,
                index,
            });
        }
    }
    None
}

// Along the current loop, then the waiting ones.
fn walked_seat(m: &[u16], l: Loops, x: u16, y: u16) -> Option<Seat>
    requires { Seekable l m.now }
    ensures { seated_of result ≡ walked_seat l m.now x y }
{
    let index = count_to(m, l.size, l.current, x, y);
    if index < l.size {
        return Some(Seat {
            number: 0,
            size: l.size,
            index,
        });
    }
    waiting_seat(m, l, x, y)
}

// Where the open edge x→y starts. Before any walk it is looked for at the place after the current one, at the one before it
// and at the one before that: there it is where c is the place after f, or the one before e.
pub(crate) fn seat_of(m: &[u16], l: Loops, x: u16, y: u16) -> Option<Seat>
    requires { Seekable l m.now }
    ensures { seated_of result ≡ seat_in l m.now x y }
{
    // Three tests in a row: each place is read only where those before it fail.
    let current = Seat {
        number: 0,
        size: l.size,
        index: 1,
    };
    let f = after_of(m, l.current);
    if is_start(m, f, x, y) {
        return Some(current);
    }
    let g = before_of(m, l.current);
    if is_start(m, g, x, y) {
        return Some(Seat {
            index: l.size - 1,
            ..current
        });
    }
    let h = before_of(m, g);
    if is_start(m, h, x, y) {
        return Some(Seat {
            index: l.size - 2,
            ..current
        });
    }
    walked_seat(m, l, x, y)
}
