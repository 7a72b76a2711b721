// The service's calls over a lent list of place records. Packing, unpacking, the volume call, the bench reader and a beginning read no
// record: each calls its core and clears as many as the answer says. An operation and a finish load the records into a plain memory and
// call the core that works there; of these the operation then links and frees those that it touched, the finish changes nothing. What
// each call promises stands on one page, promises/specs/Promises.antt.
#![tactic(auto)]

ghost use Rattle.std.specs.Prelude.{◌≡◌, ◌+◌, ◌≤◌, IfOk, IfSome, length, take, drop};
ghost use Rattle.rules.specs.Benched.{benched_of, start_of, length_of};
ghost use Rattle.rules.specs.Build.{begun_of};
ghost use Rattle.rules.specs.Checked.{checked_of};
ghost use Rattle.rules.specs.Finished.{finished_of};
ghost use Rattle.rules.specs.Later.{not_given, given};
ghost use Rattle.rules.specs.Measured.{measured_of};
ghost use Rattle.rules.specs.Operated.{performed_of};
ghost use Rattle.rules.specs.PackWhole.{extras};
ghost use Rattle.rules.specs.Packed.{packed_of};
ghost use Rattle.rules.specs.Unpacked.{unpacked_of};
ghost use Rattle.promises.specs.Promises.{Beginning, Operating, Finishing};
ghost use Rattle.promises.specs.Promises.{Checking, Packs, Unpacks, Measures, Tells, HandsBack, further};

use places::{clear, count, empty, free_all, link_all, load};
use rules::refusal::Refusal;
use rules::{Builder, Counts, Located, Model, Noted, Operation, Place, Span, Totals, Triangle};

// Checks any list of a model of v vertices: refusals 1 to 7, or its acceptance. It needs no place records.
pub fn check(v: usize, list: &[u16]) -> Result<(), Refusal>
    ensures { Checking v list.now (checked_of result) }
{
    mesh::check(v, list)
}

// Unpacks any bytes: refusals 12 to 20, 23, 25, or the model, whose triangles then stand in the first entries as built. After 15 to 20,
// 23 and 25 the first 3T triangle entries are zero. Past 14 the first 1,024 place records are left zero; after 12 to 14 nothing has
// changed.
pub fn unpack(pack: &[u8], triangles: &mut [u16], places: &mut [Place]) -> Result<Model, Refusal>
    ensures { Unpacks pack.now triangles.old places.old (unpacked_of result) triangles.new
        places.new }
{
    let n = count(places.len());
    let r = notes::unpacking::unpack_noted_on(pack, triangles, n);
    clear(places, unpacker::cleared(&r));
    r
}

// Unpacks any bytes and gives six times the volume besides: refusals 12 to 20, 23, 25 and 24, the last for a pack without positions and
// for a model with a rim. The buffers are left as unpacking leaves them; after 24 as after 20.
pub fn volume(
    pack: &[u8],
    triangles: &mut [u16],
    places: &mut [Place],
) -> Result<(Model, i64), Refusal>
    ensures { Measures pack.now triangles.old places.old (measured_of result) triangles.new
        places.new }
{
    let n = count(places.len());
    let r = measuring::volume_on(pack, triangles, n);
    clear(places, measuring::cleared(&r));
    r
}

// The bench reader, for callers that take no part of their pack: unpacks any bytes as `unpack` does, and tells where the note stands in
// them and how many bytes it has, one or more, if there is one.
pub fn bench_at(
    pack: &[u8],
    triangles: &mut [u16],
    places: &mut [Place],
) -> Result<Located, Refusal>
    ensures told { Tells pack.now triangles.old places.old (benched_of result) triangles.new
        places.new }
    ensures some { IfOk result (λ x. IfSome x.note (λ s. 1 ≤ s.length)) }
{
    let n = count(places.len());
    let r = notes::reading::bench_on(pack, triangles, n);
    clear(places, notes::reading::cleared(&r));
    r
}

// The part of a pack that is told of, the very bytes, where they stand; an empty one, where the pack begins, if none is.
fn part(pack: &[u8], told: Option<Span>) -> &[u8]
    requires { start_of told + length_of told ≤ length pack.now }
    ensures { (result.now ≡ take (length_of told) (drop (start_of told) pack.now))
        × (result.ref_ptr ≡ further (start_of told) pack.entry.ref_ptr) }
{
    let Some(Span { start, length }) = told else {
        return &pack[..0];
    };
    &pack[start..start + length]
}

// The bench reader: unpacks any bytes as `unpack` does, and hands back the note, which is a part of the pack; an empty part if there is
// none or the pack is refused.
pub fn bench<'a>(pack: &'a [u8], triangles: &mut [u16], places: &mut [Place]) -> Noted<'a>
    ensures { HandsBack pack.now pack.entry.ref_ptr triangles.old places.old (unpacked_of result.answer)
        result.note.now result.note.ref_ptr triangles.new places.new }
{
    match bench_at(pack, triangles, places) {
        Ok(told) => Noted {
            answer: Ok(told.model),
            note: part(pack, told.note),
        },
        Err(e) => Noted {
            answer: Err(e),
            note: part(pack, None),
        },
    }
}

// The four packings stay four functions: README and CLAIMS name each, and `capi` calls each for its export of the same name.

// Packs any list of a model of v vertices: refusals 1 to 8, 22, 9 to 11, or the pack's length. Then the pack stands in the first bytes of
// the pack buffer, the numbering buffer holds the new number of each old vertex, and the order buffer for each built triangle, in
// building order, its number in the list. After 9 to 11 the first v numbering entries, the first T order entries and the whole pack
// buffer are zero. Past 22 the first 1,024 place records are left zero; after 1 to 8 and 22 nothing has changed.
pub fn pack(
    v: usize,
    list: &[u16],
    numbering: &mut [u16],
    buffer: &mut [u8],
    order: &mut [u16],
    places: &mut [Place],
) -> Result<u32, Refusal>
    ensures { Packs v list.now (extras not_given not_given) numbering.old buffer.old
        order.old places.old (packed_of result) numbering.new buffer.new order.new
        places.new }
{
    let n = count(places.len());
    let r = packer::pack_on(v, list, numbering, buffer, order, n);
    clear(places, packer::cleared(&r));
    r
}

// Packs a list with positions, three for each old vertex: refusals 1 to 8, 22, 23, 9 to 11. The pack is that of the list, followed by the
// positions in new numbering; all else is as in `pack`. After 23 nothing has changed.
pub fn pack_positions(
    v: usize,
    list: &[u16],
    positions: &[i16],
    numbering: &mut [u16],
    buffer: &mut [u8],
    order: &mut [u16],
    places: &mut [Place],
) -> Result<u32, Refusal>
    ensures { Packs v list.now (extras (given positions.now) not_given) numbering.old
        buffer.old order.old places.old (packed_of result) numbering.new buffer.new
        order.new places.new }
{
    let n = count(places.len());
    let r = positions::packing::pack_positions_on(v, list, positions, numbering, buffer, order, n);
    clear(places, packer::cleared(&r));
    r
}

// Packs a list with a note: refusals 1 to 8, 22, 25, 9 to 11. The pack is that of the list, followed by the note; all else is as in
// `pack`. After 25 nothing has changed.
pub fn pack_note(
    v: usize,
    list: &[u16],
    note: &[u8],
    numbering: &mut [u16],
    buffer: &mut [u8],
    order: &mut [u16],
    places: &mut [Place],
) -> Result<u32, Refusal>
    ensures { Packs v list.now (extras not_given (given note.now)) numbering.old
        buffer.old order.old places.old (packed_of result) numbering.new buffer.new
        order.new places.new }
{
    let n = count(places.len());
    let r = notes::packing::pack_note_on(v, list, note, numbering, buffer, order, n);
    clear(places, packer::cleared(&r));
    r
}

// Packs a list with positions and a note: refusals 1 to 8, 22, 23, 25, 9 to 11. The note follows the positions.
pub fn pack_positions_note(
    v: usize,
    list: &[u16],
    positions: &[i16],
    note: &[u8],
    numbering: &mut [u16],
    buffer: &mut [u8],
    order: &mut [u16],
    places: &mut [Place],
) -> Result<u32, Refusal>
    ensures { Packs v list.now (extras (given positions.now) (given note.now))
        numbering.old buffer.old order.old places.old (packed_of result) numbering.new
        buffer.new order.new places.new }
{
    let n = count(places.len());
    let r = notes::packing::pack_positions_note_on(
        v, list, positions, note, numbering, buffer, order, n,
    );
    clear(places, packer::cleared(&r));
    r
}

// Begins a building with the counts stated: 13, 14, or a builder that holds nothing. An accepted beginning leaves the first 1,024
// place records zero and the triangle buffer untouched; a refused one changes nothing.
pub fn begin(
    stated: Counts,
    triangles: &mut [u16],
    places: &mut [Place],
) -> Result<Builder, Refusal>
    ensures { Beginning stated triangles.old places.old (begun_of result) triangles.new places.new }
{
    let n = count(places.len());
    let r = builder::begin::begin_on(stated, triangles, n);
    clear(places, builder::begin::cleared(&r));
    r
}

// Does an operation on any state, in any buffers: 21, then 16 to 18, or the state after it and the triangle that it built, which then
// stands in the triangle buffer after those built before. A refused operation changes nothing.
pub fn operation(
    state: &mut Builder,
    op: Operation,
    triangles: &mut [u16],
    places: &mut [Place],
) -> Result<Option<Triangle>, Refusal>
    ensures { Operating state.old op triangles.old places.old (performed_of state.new result)
        triangles.new places.new }
{
    let n = count(places.len());
    let mut m = empty();
    load(places, &mut m, n);
    let built = builder::operation::operation_on(state, op, triangles, &mut m, n)?;
    link_all(&m, places);
    free_all(&m, places);
    Ok(built)
}

// The finish of a building, on any state, in any buffers: 21, then 15, 19, 20, or edges, rims, unions and the Euler number.
pub fn finish(state: Builder, triangles: &[u16], places: &[Place]) -> Result<Totals, Refusal>
    ensures { Finishing state triangles.now places.now (finished_of result) }
{
    let n = count(places.len());
    let mut m = empty();
    load(places, &mut m, n);
    builder::finish::finish_on(state, triangles, &mut m, n)
}
