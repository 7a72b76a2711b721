// The edge rule, tested over the triangles that are built so far: a plain search of the triangle buffer.
// The contracts cite specs/Joined.antt, and `edge_rule` and `triangles_built` of the crate rules.
#![tactic(auto)]

ghost use Rattle.std.specs.Prelude.{◌≡◌, not, ◌+◌, ◌*◌, ◌≤◌, ◌<◌, length};
ghost use Rattle.rules.specs.Table.{side_rule, edge_rule};
ghost use Rattle.rules.specs.View.{triangles_built};
ghost use Rattle.border_theory.specs.Memory.Decision.{side_of};
ghost use Rattle.edges.specs.Joined.{is_edge, is_pair, joins_at, none_joins};

use cutborder::Plan;
use mesh::is_distinct;

// Whether x→y is the edge a→b.
#[tactic(auto, unfolding(crate::specs::Joined::is_edge))]
fn is_edge(a: u16, b: u16, x: u16, y: u16) -> bool
    ensures { result ≡ is_edge a b x y }
{
    x == a && y == b
}

// Whether x and y are a and b, either way round.
#[tactic(auto, unfolding(crate::specs::Joined::is_pair))]
fn is_pair(a: u16, b: u16, x: u16, y: u16) -> bool
    ensures { result ≡ is_pair a b x y }
{
    is_edge(a, b, x, y) || is_edge(a, b, y, x)
}

// Whether triangle j of the list joins x and y.
#[tactic(auto, unfolding(crate::specs::Joined::joins_at))]
fn joins(xs: &[u16], j: u16, x: u16, y: u16) -> bool
    requires { 3 * j + 2 < length xs.now }
    ensures { result ≡ joins_at xs.now j x y }
{
    let at = 3 * usize::from(j);
    let p = xs[at];
    let q = xs[at + 1];
    let r = xs[at + 2];
    is_pair(r, p, x, y) || is_pair(q, r, x, y) || is_pair(p, q, x, y)
}

// Whether none of the first n triangles joins x and y.
fn none_joins(xs: &[u16], n: u16, x: u16, y: u16) -> bool
    requires { 3 * n ≤ length xs.now }
    ensures { result ≡ none_joins xs.now n x y }
{
    // By number: `none_joins` of specs/Joined goes down from n.
    for j in (0..n).rev() {
        if joins(xs, j, x, y) {
            return false;
        }
    }
    true
}

// Whether a side from x to y breaks the edge rule: it is to be a new edge, and a triangle joins x and y already. (The side is a number,
// 0 or 1, as a plan has it: the counts add it up.)
#[tactic(auto, unfolding(rules::specs::Table::side_rule))]
fn is_joined(xs: &[u16], n: u16, side: u16, x: u16, y: u16) -> bool
    requires { 3 * n ≤ length xs.now }
    ensures { result ≡ not (side_rule (side_of side) x y (triangles_built xs.now n)) }
{
    side != 0 && !none_joins(xs, n, x, y)
}

// 18: whether the edge rule lets the planned triangle be built after the first n triangles of the list.
// (A count beside the list: `triangles_built` of rules/specs/View takes the first n triangles of a buffer that is longer.)
pub fn edge_rule(xs: &[u16], n: u16, p: Plan) -> bool
    requires { 3 * n ≤ length xs.now }
    ensures { result ≡ edge_rule p.triangle (side_of p.pq) (side_of p.qr) (side_of p.rp) (triangles_built xs.now n) }
{
    let t = p.triangle;
    is_distinct(t.p, t.q, t.r)
        && !is_joined(xs, n, p.pq, t.p, t.q)
        && !is_joined(xs, n, p.qr, t.q, t.r)
        && !is_joined(xs, n, p.rp, t.r, t.p)
}
