// The plain memory: numbers of 16 bits, four for each place, then the stack of free places, then two for each waiting loop. Here its
// numbers are read and written in a slice of any length; the memories that are kept so go by these functions. Of n places, those that
// n does not lie before are read too, where their records are in the slice.
ghost use Rattle.std.specs.Prelude.{◌≡◌, ◌+◌, ◌*◌, ◌-◌, ◌≤◌, ◌<◌, length, set};
ghost use Rattle.rules.specs.Limits.{max_places};
ghost use Rattle.border_theory.specs.Memory.Layout.{at, vertex_of, before_of, after_of, open_of, edge_stored, freed, waits};
ghost use Rattle.border_theory.specs.Memory.Decision.{is_open_at};

/// The vertex of place p.
pub fn vertex_of(m: &[u16], p: u16) -> u16
    requires { 4 * p + 3 < length m.now }
    ensures { result ≡ vertex_of m.now p }
{
    m[4 * usize::from(p)]
}

/// The place before place p in its loop.
pub fn before_of(m: &[u16], p: u16) -> u16
    requires { 4 * p + 3 < length m.now }
    ensures { result ≡ before_of m.now p }
{
    m[4 * usize::from(p) + 1]
}

/// The place after place p in its loop.
pub fn after_of(m: &[u16], p: u16) -> u16
    requires { 4 * p + 3 < length m.now }
    ensures { result ≡ after_of m.now p }
{
    m[4 * usize::from(p) + 2]
}

/// 1 if the edge from place p on is open, else 0.
pub fn open_of(m: &[u16], p: u16) -> u16
    requires { 4 * p + 3 < length m.now }
    ensures { result ≡ open_of m.now p }
{
    m[4 * usize::from(p) + 3]
}

/// Whether it is open.
pub fn is_open(m: &[u16], p: u16) -> bool
    requires { 4 * p + 3 < length m.now }
    ensures { result ≡ is_open_at m.now p }
{
    open_of(m, p) == 1
}

/// Place p gets vertex v.
pub fn set_vertex(m: &mut [u16], p: u16, v: u16)
    requires { 4 * p + 3 < length m.old }
    ensures { m.new ≡ set m.old (4 * p) v }
{
    m[4 * usize::from(p)] = v;
}

/// The edge from place x to place y is stored, open if o is 1.
#[tactic(auto, unfolding(border_theory::specs::Memory::Layout::edge_stored))]
pub fn store_edge(m: &mut [u16], x: u16, y: u16, o: u16)
    requires { (4 * x + 3 < length m.old) × (4 * y + 3 < length m.old) }
    ensures { m.new ≡ edge_stored m.old x y o }
{
    m[4 * usize::from(x) + 2] = y;
    m[4 * usize::from(y) + 1] = x;
    m[4 * usize::from(x) + 3] = o;
}

/// Place p goes on the stack of free places, which has k.
pub fn free_place(m: &mut [u16], n: usize, k: u16, p: u16)
    requires { (n ≤ max_places) × (4 * n + k < length m.old) }
    ensures { m.new ≡ freed n m.old k p }
{
    m[4 * n + usize::from(k)] = p;
}

/// The free place below the top ones: of k free places the one with `below` of them above it.
pub fn free_at(m: &[u16], n: usize, k: u16, below: u16) -> u16
    requires { (n ≤ max_places) × (below ≤ k) × (4 * n + k ≤ length m.now) × (1 ≤ below) }
    ensures { result ≡ at m.now (4 * n + (k - below)) }
{
    m[4 * n + usize::from(k - below)]
}

/// A loop of k places whose current edge starts at place p waits at l.
pub fn wait_at(m: &mut [u16], n: usize, l: u16, p: u16, k: u16)
    requires { (n ≤ max_places) × (5 * n + 2 * l + 1 < length m.old) }
    ensures { m.new ≡ waits n m.old l p k }
{
    let at = 5 * n + 2 * usize::from(l);
    m[at] = p;
    m[at + 1] = k;
}

/// The place where the current edge of the loop that waits at l starts.
pub fn place_at(m: &[u16], n: usize, l: u16) -> u16
    requires { (n ≤ max_places) × (5 * n + 2 * l + 1 < length m.now) }
    ensures { result ≡ at m.now (5 * n + 2 * l) }
{
    m[5 * n + 2 * usize::from(l)]
}

/// How many places it has.
pub fn size_at(m: &[u16], n: usize, l: u16) -> u16
    requires { (n ≤ max_places) × (5 * n + 2 * l + 1 < length m.now) }
    ensures { result ≡ at m.now (5 * n + 2 * l + 1) }
{
    m[5 * n + 2 * usize::from(l) + 1]
}
