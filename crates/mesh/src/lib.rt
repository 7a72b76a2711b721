// Triangle lists: why one is refused, 1 to 7. The meaning of the contracts stands in rules/specs/ and mesh_theory/specs/.
#![tactic(auto)]

pub mod fans; // 7 and 20
mod once; // 5

ghost use Rattle.std.specs.Prelude.{ℕ, ◌+◌, ◌*◌, ◌/◌, ◌≤◌, ◌<◌, List, ◌≡◌, length};
ghost use Rattle.rules.specs.Limits.{max_vertices, vertex_range};
ghost use Rattle.rules.specs.Triangle.{tri, distinct, triangles_of, corners};
ghost use Rattle.rules.specs.Check.{all_below, all_distinct, all_used, checks};
ghost use Rattle.rules.specs.Answer.{checked_answer};
ghost use Rattle.rules.specs.Checked.{checked_of};
ghost use Rattle.mesh_theory.specs.Fans.Passing.{PassesFour};
ghost use Rattle.mesh_theory.specs.Chains.Linked.{Chains, Linked};
ghost use Rattle.mesh_theory.specs.Chains.Checks.{fits_size, check_numbers, check_chains, Answers};

use crate::fans::all_fans;
use crate::once::all_once;
use corners::{Links, link_each};
use rules::refusal::Refusal;
use rules::{CORNERS, VERTICES};

// 6: each vertex below v is in a triangle.
fn all_used(chains: &Links, v: usize) -> bool
    requires { v ≤ max_vertices }
    ensures { (xs : List ℕ) → Linked xs chains.now → result ≡ all_used v (corners (triangles_of xs)) }
{
    // By number: `all_used` of rules/specs/Check goes down from v.
    for u in (0..v).rev() {
        if chains[u] == 0 {
            return false;
        }
    }
    true
}

// 1: the list is not empty, not too long, and three numbers for each triangle.
fn is_list_size(n: usize) -> bool
    ensures { result ≡ fits_size n }
{
    1 <= n && n <= CORNERS && n % 3 == 0
}

// 2: the count of vertices is in its range.
fn is_vertex_count(v: usize) -> bool
    ensures { result ≡ vertex_range v }
{
    3 <= v && v <= VERTICES
}

// 3: all numbers are below v. 21 asks the same of a builder's triangles. The loop goes to the end, so that the compiler takes many
// numbers at a time.
pub fn all_below(v: u16, list: &[u16]) -> bool
    ensures { result ≡ all_below v list.now }
{
    let mut below = true;
    for &x in list {
        if v <= x {
            below = false;
        }
    }
    below
}

// Whether a triangle has three different vertices.
pub fn is_distinct(p: u16, q: u16, r: u16) -> bool
    ensures { result ≡ distinct (tri p q r) }
{
    p != q && q != r && r != p
}

// 4: no triangle has a vertex twice.
fn all_distinct(list: &[u16]) -> bool
    requires { length list.now ≡ 3 * (length list.now / 3) }
    ensures { result ≡ all_distinct (triangles_of list.now) }
{
    for t in 0..list.len() / 3 {
        if !is_distinct(list[3 * t], list[3 * t + 1], list[3 * t + 2]) {
            return false;
        }
    }
    true
}

// 5 to 7.
fn check_chains(v: usize, list: &[u16], chains: &mut Links) -> Result<(), Refusal>
    requires { PassesFour v list.now × Chains list.now 0 chains.old }
    ensures { Answers (check_chains v (triangles_of list.now)) list.now (checked_of result) chains.new }
{
    link_each(list, chains);
    if !all_once(list, chains, v) {
        return Err(Refusal::EdgeTwice);
    }
    if !all_used(chains, v) {
        return Err(Refusal::VertexUnused);
    }
    if !all_fans(list, chains, v) {
        return Err(Refusal::FansInList);
    }
    Ok(())
}

// The first refusal of 1 to 4 that the list meets, for a model of v vertices.
pub fn check_numbers(v: usize, list: &[u16]) -> Result<(), Refusal>
    ensures { checked_of result ≡ check_numbers v list.now }
{
    if !is_list_size(list.len()) {
        return Err(Refusal::ListLength);
    }
    if !is_vertex_count(v) {
        return Err(Refusal::VertexCount);
    }
    // (`as`: 2 was tested above, so that v has 16 bits; `try_from` would be no plainer.)
    if !all_below(v as u16, list) {
        return Err(Refusal::NumberTooLarge);
    }
    if !all_distinct(list) {
        return Err(Refusal::VertexTwice);
    }
    Ok(())
}

// The first refusal of 1 to 7 that the list meets, for a model of v vertices. Chains that held no triangle then hold those of an
// accepted list.
pub fn check_into(v: usize, list: &[u16], chains: &mut Links) -> Result<(), Refusal>
    requires { Chains list.now 0 chains.old }
    ensures { Answers (Rattle.rules.specs.Check.check v list.now) list.now (checked_of result) chains.new }
{
    check_numbers(v, list)?;
    check_chains(v, list, chains)
}

// The same without the chains.
pub fn check(v: usize, list: &[u16]) -> Result<(), Refusal>
    ensures { checked_answer (checked_of result) ≡ checks v list.now }
{
    let mut chains = [0u16; VERTICES + CORNERS];
    check_into(v, list, &mut chains)
}
