// The service's building calls in a row, on buffers that are lent once: a beginning, any operations, a finish. What they come to is
// stated by the run of demand 3 (crate promises), so that the theorem on lists of calls speaks of the functions that are called here.
// The contract cites specs/Rehearsal.antt.
#![tactic(auto)]

ghost use Rattle.rules.specs.Finished.{finished_of};
ghost use Rattle.rehearsal.specs.Rehearsal.{Rehearsed};

use rules::refusal::Refusal;
use rules::{Builder, Counts, Operation, Place, Totals};
use service::{begin, finish, operation};

// Begins with the counts stated, does these operations one after the other, whatever is answered, and finishes: the answer is the
// finish's. After a refused beginning the state is the builder that was never begun.
pub fn rehearse(
    stated: Counts,
    ops: &[Operation],
    triangles: &mut [u16],
    places: &mut [Place],
) -> Result<Totals, Refusal>
    ensures { Rehearsed stated ops.now triangles.old places.old (finished_of result) triangles.new
        places.new }
{
    let mut state = begin(stated, triangles, places).unwrap_or(Builder::empty());
    for &op in ops {
        let _answer = operation(&mut state, op, triangles, places);
    }
    finish(state, triangles, places)
}
