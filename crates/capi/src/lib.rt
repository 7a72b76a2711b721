// The service's calls for C and Rust. Each function goes through the service's call of its name, `cutborder_bench` through `bench_at`, and
// returns 0 for acceptance or the refusal's number, 1 to 25; a refusal leaves the memory for results as it was, but for where a note
// stands, which is always written. A slice is a pointer and a count of entries. Place records and builders lie in memory as C lays them
// out (`repr(C)`): a record is 8 bytes, its `open` a bool, so 0 or 1; a builder is 213 numbers of 16 bits. What a caller's numbers cannot
// mean is refused by a rule: specs/Given.antt says by which. The contracts cite specs/Exported.antt.
#![tactic(auto)]

mod answered; // answers as numbers
mod given; // counts and operations from numbers

ghost use Rattle.std.specs.Prelude.{◌≡◌};
ghost use Rattle.rules.specs.Check.{checks};
ghost use Rattle.rules.specs.Later.{not_given, given};
ghost use Rattle.rules.specs.PackWhole.{extras};
ghost use Rattle.capi.specs.Given.{counts_of, operation_of};
ghost use Rattle.capi.specs.Answered.{number_of};
ghost use Rattle.capi.specs.Exported.{Packs, Unpacks, Measures, Tells, Begins, Operates, Finishes};

use answered::{begun, benched, checked, finished, measured, packed, performed, unpacked};
use given::{counts_of, operation_of};
use rules::{Builder, Place};

// Checks a list of a model of v vertices: refusals 1 to 7.
#[unsafe(no_mangle)]
pub extern "C" fn cutborder_check(v: usize, list: &[u16]) -> u32
    ensures { result ≡ number_of (checks v list.now) }
{
    checked(service::check(v, list))
}

// Packs a list of a model of v vertices: refusals 1 to 8, 22, 9 to 11, or the pack, its length in `size`, the numbering and the order.
#[unsafe(no_mangle)]
pub extern "C" fn cutborder_pack(
    v: usize,
    list: &[u16],
    numbering: &mut [u16],
    buffer: &mut [u8],
    order: &mut [u16],
    places: &mut [Place],
    size: &mut u32,
) -> u32
    ensures { Packs v list.now (extras not_given not_given) numbering.old buffer.old
        order.old places.old size.old result numbering.new buffer.new order.new
        places.new size.new }
{
    let r = service::pack(v, list, numbering, buffer, order, places);
    packed(r, size)
}

// The same with positions, three for each old vertex: 23 besides, after 22.
#[unsafe(no_mangle)]
pub extern "C" fn cutborder_pack_positions(
    v: usize,
    list: &[u16],
    positions: &[i16],
    numbering: &mut [u16],
    buffer: &mut [u8],
    order: &mut [u16],
    places: &mut [Place],
    size: &mut u32,
) -> u32
    ensures { Packs v list.now (extras (given positions.now) not_given) numbering.old
        buffer.old order.old places.old size.old result numbering.new
        buffer.new order.new places.new size.new }
{
    let r = service::pack_positions(v, list, positions, numbering, buffer, order, places);
    packed(r, size)
}

// The same with a note, one to 64 bytes, and no positions: 25 besides, after 22.
#[unsafe(no_mangle)]
pub extern "C" fn cutborder_pack_note(
    v: usize,
    list: &[u16],
    note: &[u8],
    numbering: &mut [u16],
    buffer: &mut [u8],
    order: &mut [u16],
    places: &mut [Place],
    size: &mut u32,
) -> u32
    ensures { Packs v list.now (extras not_given (given note.now)) numbering.old
        buffer.old order.old places.old size.old result numbering.new
        buffer.new order.new places.new size.new }
{
    let r = service::pack_note(v, list, note, numbering, buffer, order, places);
    packed(r, size)
}

// The same with both: 23 and 25 besides, after 22.
#[unsafe(no_mangle)]
pub extern "C" fn cutborder_pack_positions_note(
    v: usize,
    list: &[u16],
    positions: &[i16],
    note: &[u8],
    numbering: &mut [u16],
    buffer: &mut [u8],
    order: &mut [u16],
    places: &mut [Place],
    size: &mut u32,
) -> u32
    ensures { Packs v list.now (extras (given positions.now) (given note.now))
        numbering.old buffer.old order.old places.old size.old result
        numbering.new buffer.new order.new places.new size.new }
{
    let r = service::pack_positions_note(
        v, list, positions, note, numbering, buffer, order, places,
    );
    packed(r, size)
}

// Unpacks any bytes: refusals 12 to 20, 23, 25, or the triangles, the numbers of vertices, triangles, edges, rims and unions in `model`,
// and the Euler number.
#[unsafe(no_mangle)]
pub extern "C" fn cutborder_unpack(
    pack: &[u8],
    triangles: &mut [u16],
    places: &mut [Place],
    model: &mut [u16; 5],
    euler: &mut i32,
) -> u32
    ensures { Unpacks pack.now triangles.old places.old model.old euler.old result
        triangles.new places.new model.new euler.new }
{
    let r = service::unpack(pack, triangles, places);
    unpacked(r, model, euler)
}

// The same, and six times the volume in `six`: 24 besides, last, for a pack without positions and for a model with a rim.
#[unsafe(no_mangle)]
pub extern "C" fn cutborder_volume(
    pack: &[u8],
    triangles: &mut [u16],
    places: &mut [Place],
    model: &mut [u16; 5],
    euler: &mut i32,
    six: &mut i64,
) -> u32
    ensures { Measures pack.now triangles.old places.old model.old euler.old
        six.old result triangles.new places.new model.new euler.new six.new }
{
    let r = service::volume(pack, triangles, places);
    measured(r, model, euler, six)
}

// The bench reader: unpacks as `cutborder_unpack` does; `start` and `length` are always written: from which byte of the pack on the note
// stands, and how many bytes it has, twice 0 if there is none or the pack is refused.
#[unsafe(no_mangle)]
pub extern "C" fn cutborder_bench(
    pack: &[u8],
    triangles: &mut [u16],
    places: &mut [Place],
    model: &mut [u16; 5],
    euler: &mut i32,
    start: &mut usize,
    length: &mut usize,
) -> u32
    ensures { Tells pack.now triangles.old places.old model.old euler.old result
        triangles.new places.new model.new euler.new start.new length.new }
{
    let r = service::bench_at(pack, triangles, places);
    benched(r, model, euler, start, length)
}

// Begins a building with the counts v, t, most places and most loops: 13, 14, or a builder that holds nothing in `state`. A count
// above 65,535 is 13.
#[unsafe(no_mangle)]
pub extern "C" fn cutborder_begin(
    v: u32,
    t: u32,
    most_places: u32,
    most_loops: u32,
    triangles: &mut [u16],
    places: &mut [Place],
    state: &mut Builder,
) -> u32
    ensures { Begins (counts_of v t most_places most_loops) triangles.old places.old state.old result
        triangles.new places.new state.new }
{
    let stated = counts_of(v, t, most_places, most_loops);
    begun(service::begin(stated, triangles, places), state)
}

// Does the operation of a code on any state, p and j its indices (split has j alone): 21, then 16 to 18, or the state after it;
// `built` is then 1 and the triangle that it built, or four zeros where it marked an edge. A code above 7 or an index above 65,535
// is no operation of the table: 16.
#[unsafe(no_mangle)]
pub extern "C" fn cutborder_operation(
    state: &mut Builder,
    code: u32,
    p: u32,
    j: u32,
    triangles: &mut [u16],
    places: &mut [Place],
    built: &mut [u16; 4],
) -> u32
    ensures { Operates state.old (operation_of code p j) triangles.old places.old
        built.old result state.new triangles.new places.new built.new }
{
    let o = operation_of(code, p, j);
    performed(service::operation(state, o, triangles, places), built)
}

// The finish of a building: 21, then 15, 19, 20, or edges, rims and unions in `totals`, and the Euler number.
#[unsafe(no_mangle)]
pub extern "C" fn cutborder_finish(
    state: &Builder,
    triangles: &[u16],
    places: &[Place],
    totals: &mut [u16; 3],
    euler: &mut i32,
) -> u32
    ensures { Finishes state.now triangles.now places.now totals.old euler.old
        result totals.new euler.new }
{
    finished(service::finish(*state, triangles, places), totals, euler)
}
