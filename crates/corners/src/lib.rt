// The look-up of the triangle that has a directed edge, by chains of the corners that a vertex has in a list.
// Corner c is position c of the list. The meaning of the contracts stands in mesh_theory/specs/Chains/.
// Where `as` narrows, the clause `c < max_numbers` of its function bounds the number, or it is a remainder by 3: `try_from` is no plainer.
#![tactic(auto)]

ghost use Rattle.std.specs.Prelude.{◌+◌, ◌*◌, ◌/◌, ◌≤◌, ◌<◌, ◌≡◌, Some, length};
ghost use Rattle.rules.specs.Across.{across_of};
ghost use Rattle.rules.specs.Limits.{max_numbers, max_vertices};
ghost use Rattle.mesh_theory.specs.Chains.Corner.{corner_after, corner_before, seen_from};
ghost use Rattle.mesh_theory.specs.Chains.Linked.{Chains, Finds, Newest, Older, linked, linkable, relinked, Sound, UnjoinedIs};

use rules::{CORNERS, Opposite, VERTICES};

// The chains of the corners of each vertex, the latest corner first: the entry of vertex v stands at v, that of corner c at
// VERTICES + c. An entry is 1 more than a corner, or 0 for none. All zeros are the chains of no triangle. (An entry stays a number:
// C lends the array to `cutborder_link` and `cutborder_search`.)
pub type Links = [u16; VERTICES + CORNERS];

// The next corner of the same triangle.
#[tactic(auto, unfolding(mesh_theory::specs::Chains::Corner::corner_after))]
pub fn corner_after(c: usize) -> usize
    requires { c < max_numbers }
    ensures { (result ≡ corner_after c) × (result < 3 * ((c + 3) / 3)) }
{
    if c % 3 == 2 { c - 2 } else { c + 1 }
}

// The corner before it in the same triangle.
#[tactic(auto, unfolding(mesh_theory::specs::Chains::Corner::corner_before))]
pub fn corner_before(c: usize) -> usize
    requires { c < max_numbers }
    ensures { (result ≡ corner_before c) × (result < 3 * ((c + 3) / 3)) }
{
    if c % 3 == 0 { c + 2 } else { c - 1 }
}

// The entry at which the chain of v begins; 0 for one that cannot be a corner of the list. (An entry is a number here and in `older`, 0 for
// none: C lends the chains, and `Newest` and `Older` speak of numbers. `as usize`: with `usize::from` it was tried, and did not check.)
pub fn newest(list: &[u16], chains: &Links, v: u16) -> usize
    ensures { Newest list.now chains.now v result }
{
    if VERTICES <= usize::from(v) {
        return 0;
    }
    let c = usize::from(chains[v as usize]);
    if CORNERS < c || list.len() < (c + 2) / 3 * 3 {
        return 0;
    }
    c
}

// The entry at which a chain goes on from corner c; 0 for one that does not go down.
pub fn older(chains: &Links, c: usize) -> usize
    requires { c < max_numbers }
    ensures { Older chains.now c result }
{
    let d = usize::from(chains[VERTICES + c]);
    if c < d { 0 } else { d }
}

// The corners of a vertex, the latest first: those of its chain.
#[derive(Clone, Copy)]
pub struct Corners<'a> {
    pub chains: &'a Links,
    pub entry: usize,
    ghost most: { entry ≤ max_numbers },
}

impl<'a> Iterator for Corners<'a> {
    ghost use Rattle.std.specs.Iterator.{at_most};
    ghost use Rattle.corners.specs.Descends.{Descends};

    type Item = usize;

    ghost next_gives = { Descends };

    ghost remaining = { λ s. at_most s.entry };

    fn next(&mut self) -> Option<usize> {
        if self.entry == 0 {
            return None;
        }
        let c = self.entry - 1;
        self.entry = older(self.chains, c);
        Some(c)
    }
}

// The corners of v in the list, as many as the chains hold.
pub fn corners_of<'a>(list: &[u16], chains: &'a Links, v: u16) -> Corners<'a>
    ensures entry { Newest list.now chains.now v result.entry }
    ensures chains { result.chains.now ≡ chains.now }
{
    Corners {
        chains,
        entry: newest(list, chains, v),
    }
}

// The triangle of corner c, as it is found across the edge that leaves that corner.
#[tactic(auto, unfolding(mesh_theory::specs::Chains::Corner::seen_from))]
fn seen_from(list: &[u16], c: usize) -> Opposite
    requires { (c < max_numbers) × (3 * ((c + 3) / 3) ≤ length list.now) }
    ensures { across_of (Some result) ≡ seen_from list.now c }
{
    let k = corner_before(c);
    Opposite {
        triangle: (c / 3) as u16,
        corner: (k % 3) as u8,
        vertex: list[k],
    }
}

// The triangle that has the directed edge p→q, of several the last, among the first triangles of the list, as many as the
// chains hold; none from a vertex to itself. Safe on any array; what it finds is promised where the array holds chains.
pub fn across(list: &[u16], chains: &Links, p: u16, q: u16) -> Option<Opposite>
    ensures { Finds list.now chains.now p q (across_of result) }
{
    // A loop by hand: as a `for` over `corners_of` it was tried, and a search takes 15 to 22 of 100 longer.
    let mut c = newest(list, chains, p);
    while 0 < c {
        c -= 1;
        if list[corner_after(c)] == q {
            if p == q {
                return None;
            }
            return Some(seen_from(list, c));
        }
        c = older(chains, c);
    }
    None
}

// Puts corner c at the front of the chain of v.
fn link_corner(chains: &mut Links, v: u16, c: usize)
    requires { (v < max_vertices) × (c < max_numbers) }
    ensures { chains.new ≡ linked chains.old v c }
{
    chains[VERTICES + c] = chains[usize::from(v)];
    chains[usize::from(v)] = (c + 1) as u16;
}

// Whether the chains have room for triangle t and its vertices.
#[tactic(auto, unfolding(mesh_theory::specs::Chains::Linked::linkable))]
fn is_linkable(t: usize, p: u16, q: u16, r: u16) -> bool
    ensures { result ≡ linkable t p q r }
{
    t < CORNERS / 3
        && usize::from(p) < VERTICES
        && usize::from(q) < VERTICES
        && usize::from(r) < VERTICES
}

// Adds triangle t, with the corners p q r, to the chains of the t triangles before it; one that they have no room for
// changes nothing.
#[tactic(auto, unfolding(mesh_theory::specs::Chains::Linked::linkable, mesh_theory::specs::Chains::Linked::relinked))]
pub fn link(chains: &mut Links, t: usize, p: u16, q: u16, r: u16)
    ensures { chains.new ≡ relinked chains.old t p q r }
{
    if is_linkable(t, p, q, r) {
        link_corner(chains, p, 3 * t);
        link_corner(chains, q, 3 * t + 1);
        link_corner(chains, r, 3 * t + 2);
    }
}

// Whether no triangle in the chains joins x and y, either way round: one that does has a corner at x, with y next to it.
pub fn is_unjoined(list: &[u16], chains: &Links, x: u16, y: u16) -> bool
    ensures { UnjoinedIs list.now chains.now x y result }
{
    for c in corners_of(list, chains, x) {
        if list[corner_after(c)] == y || list[corner_before(c)] == y {
            return false;
        }
    }
    true
}

// Links the triangles of the list, the last one last, to chains that hold none. Whether an edge occurs twice is not asked.
pub fn link_each(list: &[u16], chains: &mut Links)
    requires { Sound list.now × Chains list.now 0 chains.old }
    ensures { Chains list.now (length list.now) chains.new }
{
    // By number: `link` takes the number t, as `relinked` does, and `Sound` and `Chains` bound the corners by their positions.
    for t in 0..list.len() / 3 {
        link(chains, t, list[3 * t], list[3 * t + 1], list[3 * t + 2]);
    }
}
