// 7 and 20: turning about a vertex, to see whether its triangles form one fan. Its corners are noted first, so that turning searches
// nothing. Turning back and turning on stay two functions: they read other notes, and only turning on can come round.
// `as usize` in `note_all` and `turn_back`: with `usize::from` it was tried; their answers speak of the number itself and did not check.
// `as u16` narrows what the clause `v ≤ max_vertices` of `fans` bounds.
ghost use Rattle.std.specs.Prelude.{◌+◌, ◌*◌, ◌≤◌, ◌<◌, List, ◌≡◌};
ghost use Rattle.std.specs.Option.{ForSome};
ghost use Rattle.rules.specs.declared.Triangle.{Triangle};
ghost use Rattle.rules.specs.Limits.{max_vertices};
ghost use Rattle.rules.specs.Triangle.{triangles_of};
ghost use Rattle.rules.specs.Fan.{about, one_run, one_fan_each};
ghost use Rattle.mesh_theory.specs.Chains.Linked.{Newest, Linked};
ghost use Rattle.mesh_theory.specs.Chains.Turn.{left_on, left_back};
ghost use Rattle.mesh.specs.Turns.{noted, Fresh, Within, Noted, AllNoted, UnmetAt, Unmet};

use corners::{Corners, Links, corner_after, corner_before, corners_of};
use rules::VERTICES;

// Notes for turning about a vertex. Note j has two numbers: at 2j, 1 more than the vertex v about which it was written last; at 2j + 1,
// the third vertex of the triangle that has an edge at v. Note 2y is of the edge v→y, note 2y + 1 of y→v.
// (A note stays two numbers of one array: `noted`, `Fresh` and `Note` of specs/Turns speak of that array.)
type Notes = [u16; 4 * VERTICES];

// The vertices whose fans are to be tested: the entry of vertex v stands at v, and is 0 where its triangles are known to form one fan.
// (An array of numbers: `UnmetAt` of specs/Turns and `met_after` of unpack_theory/specs/Met speak of it, and there is no heap.)
pub type Met = [u16; VERTICES];

// Writes z into note j about v.
fn note(notes: &mut Notes, v: u16, j: usize, z: u16)
    requires { (v < max_vertices) × (j < 2 * max_vertices) }
    ensures { notes.new ≡ noted notes.old v j z }
{
    notes[2 * j] = v + 1;
    notes[2 * j + 1] = z;
}

// Notes all triangles about v, which has these corners: how many they are.
fn note_all(list: &[u16], corners: Corners, notes: &mut Notes, v: u16) -> usize
    requires linked { Linked list.now corners.chains.now × (v < max_vertices) }
    requires newest { Newest list.now corners.chains.now v corners.entry × Fresh notes.old (v + 1) }
    ensures { AllNoted list.now corners.entry.chains.now v corners.entry.entry result notes.new }
{
    let mut n = 0;
    for c in corners {
        let y = list[corner_after(c)];
        let z = list[corner_before(c)];
        note(notes, v, 2 * (y as usize), z);
        note(notes, v, 2 * (z as usize) + 1, y);
        n += 1;
    }
    n
}

// How many of n triangles about v are left after turning back by the notes from the edge x→v as far as it goes.
fn turn_back(notes: &Notes, v: u16, x: u16, n: usize) -> usize
    requires { (v < max_vertices) × (x < max_vertices) × Within notes.now v }
    ensures { (ts : List Triangle) → Noted ts v notes.now → result ≡ left_back ts v x n }
{
    let mut from = x;
    for reached in 0..n {
        let j = 2 * (from as usize) + 1;
        if notes[2 * j] != v + 1 {
            return n - reached;
        }
        from = notes[2 * j + 1];
    }
    0
}

// The same after turning on from the edge v→y: a closed fan comes round to x; where an open one ends, it turns back from x.
fn turn_on(notes: &Notes, v: u16, x: u16, y: u16, n: usize) -> usize
    requires { (v < max_vertices) × (x < max_vertices) × (y < max_vertices) × Within notes.now v }
    ensures { (ts : List Triangle) → Noted ts v notes.now → result ≡ left_on ts v x y n }
{
    let mut to = y;
    for reached in 0..n {
        if to == x {
            return n - reached;
        }
        let j = 2 * (to as usize);
        if notes[2 * j] != v + 1 {
            return turn_back(notes, v, x, n - reached);
        }
        to = notes[2 * j + 1];
    }
    0
}

// Whether the triangles about v form one fan: turning from one of them reaches all.
fn is_fan(list: &[u16], chains: &Links, notes: &mut Notes, v: u16) -> bool
    requires { Linked list.now chains.now × (v < max_vertices) × Fresh notes.old (v + 1) }
    ensures fan { result ≡ one_run (about v (triangles_of list.now)) }
    ensures fresh { Fresh notes.new v }
{
    let corners = corners_of(list, chains, v);
    let c = corners.entry;
    if c == 0 {
        return true;
    }
    let n = note_all(list, corners, notes, v);
    let x = list[corner_after(c - 1)];
    let y = list[corner_before(c - 1)];
    turn_on(notes, v, x, y, n - 1) == 0
}

// Whether the triangles about v form one fan, where they do so if there are marks and v is not met.
fn is_fan_if_met(
    list: &[u16],
    chains: &Links,
    marks: Option<&Met>,
    notes: &mut Notes,
    v: u16,
) -> bool
    requires linked { Linked list.now chains.now × (v < max_vertices) × Fresh notes.old (v + 1) }
    requires unmet_at { ForSome marks (λ k. UnmetAt list.now k.now v) }
    ensures fan { result ≡ one_run (about v (triangles_of list.now)) }
    ensures fresh { Fresh notes.new v }
{
    if let Some(met) = marks {
        if met[v as usize] == 0 {
            return true;
        }
    }
    is_fan(list, chains, notes, v)
}

// Whether no vertex below v has more than one fan, where with marks those that are not met have one each. (Not inlined: see `all_once`.)
#[inline(never)]
fn fans(list: &[u16], chains: &Links, marks: Option<&Met>, v: usize) -> bool
    requires linked { Linked list.now chains.now × (v ≤ max_vertices) }
    requires unmet { ForSome marks (λ k. Unmet list.now k.now v) }
    ensures { result ≡ one_fan_each v (triangles_of list.now) }
{
    let mut notes = [0u16; 4 * VERTICES];
    for u in (0..v).rev() {
        if !is_fan_if_met(list, chains, marks, &mut notes, u as u16) {
            return false;
        }
    }
    true
}

// 7: no vertex below v has more than one fan.
pub fn all_fans(list: &[u16], chains: &Links, v: usize) -> bool
    requires { Linked list.now chains.now × (v ≤ max_vertices) }
    ensures { result ≡ one_fan_each v (triangles_of list.now) }
{
    fans(list, chains, None, v)
}

// 7, of a list whose vertices that are not met have one fan each: no vertex below v has more than one.
pub fn met_fans(list: &[u16], chains: &Links, met: &Met, v: usize) -> bool
    requires linked { Linked list.now chains.now × (v ≤ max_vertices) }
    requires unmet { Unmet list.now met.now v }
    ensures { result ≡ one_fan_each v (triangles_of list.now) }
{
    fans(list, chains, Some(met), v)
}
