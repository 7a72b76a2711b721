// What a caller's numbers mean: C hands over codes, so each number has a meaning, if only one that the rules refuse. The contracts cite
// specs/Given.antt.
ghost use Rattle.std.specs.Prelude.{◌≡◌};
ghost use Rattle.capi.specs.Given.{within16, counts_of, split_of, union_of, plain_of, operation_of};

use rules::{Counts, Operation};
use wire::reader::kind_of;

// A number of 16 bits; a larger one is 65,535, which is above every limit of the rules.
#[tactic(auto, unfolding(crate::specs::Given::within16))]
fn within_16(n: u32) -> u16
    ensures { result ≡ within16 n }
{
    u16::try_from(n).unwrap_or(u16::MAX)
}

// The counts that a beginning states: one above 65,535 is out of 13's range as 65,535 is.
pub(crate) fn counts_of(vertices: u32, triangles: u32, places: u32, loops: u32) -> Counts
    ensures { result ≡ counts_of vertices triangles places loops }
{
    Counts {
        vertices: within_16(vertices),
        triangles: within_16(triangles),
        places: within_16(places),
        loops: within_16(loops),
    }
}

// A split to place i; to one above 65,535 it is the split to place 0, which the table never allows.
#[tactic(auto, unfolding(crate::specs::Given::split_of))]
fn split_of(i: u32) -> Operation
    ensures { result ≡ split_of i }
{
    Operation::Split(u16::try_from(i).unwrap_or(0))
}

// A union with place j of loop p; one of an index above 65,535 is the split to place 0.
#[tactic(auto, unfolding(crate::specs::Given::union_of))]
fn union_of(p: u32, j: u32) -> Operation
    ensures { result ≡ union_of p j }
{
    let (Ok(p), Ok(j)) = (u16::try_from(p), u16::try_from(j)) else {
        return Operation::Split(0);
    };
    Operation::Union(p, j)
}

// The operation of a code that has no index; a code above 7 is the split to place 0.
#[tactic(auto, unfolding(crate::specs::Given::plain_of))]
fn plain_of(code: u32) -> Operation
    ensures { result ≡ plain_of code }
{
    if code < 8 {
        return kind_of(code as u16);
    }
    Operation::Split(0)
}

// The operation of a code with its indices, which split (4) and union (6) have.
#[tactic(auto, unfolding(crate::specs::Given::operation_of))]
pub(crate) fn operation_of(code: u32, p: u32, j: u32) -> Operation
    ensures { result ≡ operation_of code p j }
{
    match code {
        4 => split_of(j),
        6 => union_of(p, j),
        _ => plain_of(code),
    }
}
