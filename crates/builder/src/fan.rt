// 20, tested on any triangle buffer. A list that passes 1 to 6 is tested by chains of its corners, as in packing. No list of calls
// leads to another one; for it the fans are turned through as the definition says, the edges about a vertex in arrays.
ghost use Rattle.std.specs.Prelude.{◌≡◌, ◌+◌, ◌*◌, ◌≤◌, ◌<◌, IfSome, length, set};
ghost use Rattle.rules.specs.Limits.{max_triangles};
ghost use Rattle.rules.specs.Fan.{about, one_run, one_fan_each};
ghost use Rattle.rules.specs.View.{triangles_built};
ghost use Rattle.state_theory.specs.Finishing.Turning.{is_left, latest_left, turned, all_taken, Adds, Holds};

use mesh::check;
use rules::TRIANGLES;
use rules::refusal::Refusal;

// A number for each edge: where it starts, where it ends, or whether it is taken. An array, since there is no heap.
// `gone` is one too: `turned` and `all_taken` of state_theory speak of numbers, 0 for an edge that is not taken.
type Row = [u16; TRIANGLES];

// The edges opposite a vertex, the latest triangle's last: where each starts, where it ends, and how many there are.
// Two lists side by side, as `Adds` of state_theory has them: to turn back is to turn on with the two exchanged.
#[derive(Drop)]
struct Edges {
    from: Row,
    to: Row,
    count: usize,
}

impl Edges {
    // Adds the edge x→y.
    fn add(&mut self, x: u16, y: u16)
        requires { self.old.count < max_triangles }
        ensures { (self.new.count ≡ self.old.count + 1) × ((self.new.from ≡ set self.old.from self.old.count x)
            × (self.new.to ≡ set self.old.to self.old.count y)) }
    {
        self.from[self.count] = x;
        self.to[self.count] = y;
        self.count += 1;
    }

    // Adds the edge that triangle t has opposite v, if v is one of its corners.
    fn see(&mut self, triangles: &[u16], t: usize, v: u16)
        requires { (t < max_triangles) × ((3 * t + 3 ≤ length triangles.now) × (self.old.count < max_triangles)) }
        ensures { Adds v triangles.now t self.old.from self.old.to self.old.count self.new.from self.new.to self.new.count }
    {
        let p = triangles[3 * t];
        let q = triangles[3 * t + 1];
        let r = triangles[3 * t + 2];
        if p == v {
            self.add(q, r)
        } else if q == v {
            self.add(r, p)
        } else if r == v {
            self.add(p, q)
        }
    }
}

// Whether edge i is not taken and its end in the array is x.
#[tactic(auto, unfolding(state_theory::specs::Finishing::Turning::is_left))]
fn is_left(ends: &Row, gone: &Row, i: usize, x: u16) -> bool
    requires { i < max_triangles }
    ensures { result ≡ is_left ends.now gone.now i x }
{
    gone[i] == 0 && ends[i] == x
}

// The latest of the first n edges that is not taken and has this end.
#[tactic(auto, unfolding(state_theory::specs::Finishing::Turning::latest_left))]
fn latest_left(ends: &Row, gone: &Row, x: u16, n: usize) -> Option<usize>
    requires { n ≤ max_triangles }
    ensures told { result ≡ latest_left ends.now gone.now x n }
    ensures below { IfSome result (λ i. i < n) }
{
    // By number, as `latest_left` of state_theory counts, whose answer is the edge's number.
    for i in (0..n).rev() {
        if is_left(ends, gone, i, x) {
            return Some(i);
        }
    }
    None
}

// Turns from x as far as it goes over the first n edges, by at most n of them, each taken from its near end to its far end.
#[tactic(auto, unfolding(state_theory::specs::Finishing::Turning::turned))]
fn turn(near: &Row, far: &Row, gone: &mut Row, x: u16, n: usize)
    requires { n ≤ max_triangles }
    ensures { gone.new ≡ turned near.now far.now n n x gone.old }
{
    let mut at = x;
    for _ in 0..n {
        let Some(i) = latest_left(near, gone, at, n) else {
            return;
        };
        at = far[i];
        gone[i] = 1;
    }
}

// Whether the first n edges are taken.
#[tactic(auto, unfolding(state_theory::specs::Finishing::Turning::all_taken))]
fn all_taken(gone: &Row, n: usize) -> bool
    requires { n ≤ max_triangles }
    ensures { result ≡ all_taken gone.now n }
{
    // By number, as `all_taken` of state_theory counts.
    for i in (0..n).rev() {
        if gone[i] == 0 {
            return false;
        }
    }
    true
}

// Whether the first n triangles have one fan about v: turning from the latest, one way and then the other, reaches all.
fn is_run(triangles: &[u16], n: usize, v: u16) -> bool
    requires { (n ≤ max_triangles) × (3 * n ≤ length triangles.now) }
    ensures { result ≡ one_run (about v (triangles_built triangles.now n)) }
{
    let mut edges = Edges {
        from: [0; TRIANGLES],
        to: [0; TRIANGLES],
        count: 0,
    };
    // By number, as `Adds` of state_theory names a triangle; after n of them `Holds` speaks of `triangles_built`.
    for t in 0..n {
        edges.see(triangles, t, v);
    }
    let Some(last) = edges.count.checked_sub(1) else {
        return true;
    };
    let mut gone = [0; TRIANGLES];
    turn(&edges.from, &edges.to, &mut gone, edges.to[last], last);
    turn(&edges.to, &edges.from, &mut gone, edges.from[last], last);
    all_taken(&gone, last)
}

// Whether none of the vertices below v has more than one fan, by the definition.
#[tactic(auto, unfolding(rules::specs::Fan::one_fan_each))]
fn all_runs(triangles: &[u16], n: usize, v: u16) -> bool
    requires { (n ≤ max_triangles) × (3 * n ≤ length triangles.now) }
    ensures { result ≡ one_fan_each v (triangles_built triangles.now n) }
{
    for u in (0..v).rev() {
        if !is_run(triangles, n, u) {
            return false;
        }
    }
    true
}

// 20: whether none of the vertices below v has more than one fan among the first n triangles of the buffer.
pub fn one_fan_each(triangles: &[u16], n: usize, v: u16) -> bool
    requires { (n ≤ max_triangles) × (3 * n ≤ length triangles.now) }
    ensures { result ≡ one_fan_each v (triangles_built triangles.now n) }
{
    // `as`: tried with usize::from, the proof did not close: the answers speak of the number itself.
    match check(v as usize, &triangles[..3 * n]) {
        Ok(()) => true,
        Err(Refusal::FansInList) => false,
        Err(_) => all_runs(triangles, n, v),
    }
}
