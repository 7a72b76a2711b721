// The furnace's own reader: a pack is read in one lent byte array, its operations run on the cut-border without the edge rule, and the
// volume added up while it builds. What the contracts cite stands in rules/specs/Furnace and melting_theory/specs/.
#![tactic(auto)]

mod conclude; // 19, 23 to 25, and the answer
mod run; // one operation, and the run of them

ghost use Rattle.std.specs.Prelude.{◌≡◌};
ghost use Rattle.rules.specs.Fields.{fields_of};
ghost use Rattle.rules.specs.Furnace.{peaks_fit, melt_fields, melt};
ghost use Rattle.rules.specs.Melted.{melted_of};
ghost use Rattle.wire.specs.Told.{lent};
ghost use Rattle.melting_theory.specs.Runs.{weighed_part};

use crate::conclude::conclude;
use crate::run::run;
use cells::BYTES;
use rules::refusal::Refusal;
use rules::{Counts, FURNACE_LOOPS, FURNACE_PLACES};
use wire::fields::{fields_of, note_of, parts_of};

// 26: whether the stated peaks fit.
fn is_small(stated: Counts) -> bool
    ensures { result ≡ peaks_fit stated }
{
    usize::from(stated.places) <= FURNACE_PLACES && usize::from(stated.loops) <= FURNACE_LOOPS
}

// The positions that are weighed with: those that are given, if they have six bytes for each vertex, else none.
fn weighed_part<'a>(positions: Option<&'a [u8]>, v: u16) -> &'a [u8]
    ensures { result.now ≡ weighed_part (lent positions.entry) v }
{
    match positions {
        Some(field) if field.len() == 6 * usize::from(v) => field,
        _ => &[],
    }
}

// A pack's first two fields, with the positions and the note, if there are any.
fn melt_fields(
    two: &[u8],
    positions: Option<&[u8]>,
    note: Option<&[u8]>,
    m: &mut [u8; BYTES],
) -> Result<i64, Refusal>
    ensures { melted_of result ≡ melt_fields (lent positions.entry) (lent note.entry) (fields_of two.now) }
{
    let fields = fields_of(two)?;
    if !is_small(fields.stated) {
        return Err(Refusal::TooLargeForFurnace);
    }
    let field = weighed_part(positions, fields.stated.vertices);
    let end = run(fields.operations, field, fields.stated, m)?;
    conclude(fields.operations, end, positions, note)
}

// Reads any bytes, in a memory of 1,024 bytes that may hold anything before and after.
pub fn melt_on(pack: &[u8], m: &mut [u8; BYTES]) -> Result<i64, Refusal>
    ensures { melted_of result ≡ melt pack.now }
{
    let split = note_of(pack);
    let Some(parts) = parts_of(split.before) else {
        return Err(Refusal::NotFields);
    };
    melt_fields(parts.two, parts.positions, split.note, m)
}
