// The counts and sums of a builder's state, and the numbers of its triangles.
ghost use Rattle.std.specs.Prelude.{◌≡◌, ◌*◌, ◌≤◌, leb, length};
ghost use Rattle.rules.specs.Sound.{sizes_of, counts_fit, sums_fit, triangles_fit};
ghost use Rattle.rules.specs.Limits.{max_loops};
ghost use Rattle.state_theory.specs.Opening.Marks.{numbers_fit};

use mesh::all_below;
use rules::Builder;
use wire::fields::{is_in_range, is_long_enough};

// Whether the loops together have at most the places stated.
#[tactic(auto, unfolding(rules::specs::Sound::sizes_of))]
fn sizes_fit(b: Builder) -> bool
    requires { b.live ≤ max_loops }
    ensures { result ≡ leb (sizes_of b b.live) b.stated.places }
{
    let mut sum = 0;
    // By number, as `sizes_of` of rules counts.
    for w in 0..usize::from(b.live) {
        sum += u32::from(b.sizes[w]);
    }
    sum <= u32::from(b.stated.places)
}

// Whether the counts exceed neither those stated nor 13's ranges.
fn counts_fit(b: Builder) -> bool
    ensures { result ≡ counts_fit b }
{
    is_in_range(b.stated)
        && b.used <= b.stated.vertices
        && b.built <= b.stated.triangles
        && b.live <= b.stated.loops
        && sizes_fit(b)
        && b.peaks.loops <= b.stated.loops
        && b.peaks.places <= b.stated.places
}

// Whether edges, starts, unions and rims do not exceed 3T.
fn sums_fit(b: Builder) -> bool
    ensures { result ≡ sums_fit b }
{
    let most = 3 * u32::from(b.stated.triangles);
    u32::from(b.edges) <= most
        && u32::from(b.starts) <= most
        && u32::from(b.unions) <= most
        && u32::from(b.rims) <= most
}

// Whether the numbers of the triangles built so far are below the count so far.
fn triangles_fit(b: Builder, triangles: &[u16]) -> bool
    requires { 3 * b.built ≤ length triangles.now }
    ensures { result ≡ triangles_fit b triangles.now }
{
    all_below(b.used, &triangles[..3 * usize::from(b.built)])
}

// What 21 asks of the numbers beside the loops' places.
#[tactic(auto, unfolding(state_theory::specs::Opening::Marks::numbers_fit))]
pub(crate) fn numbers_fit(b: Builder, triangles: &[u16], n: usize) -> bool
    ensures { result ≡ numbers_fit b triangles.now n }
{
    is_long_enough(b.stated, triangles.len(), n)
        && counts_fit(b)
        && sums_fit(b)
        && triangles_fit(b, triangles)
}
