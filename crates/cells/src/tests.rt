// The memories read and written: each as itself, those whose types say their places lent as `Fixed`, slices, and the stack beyond the
// places.
ghost use Rattle.std.specs.Prelude.{◌≡◌, ◌+◌, ◌*◌, ◌≤◌, ◌<◌, length, set};

use crate::fixed::{Fixed, FixedMut};
use crate::slices::{PlaceSlice, PlaceSliceMut};
use crate::{BYTES, FreeStack, FreeStackMut, LoopMemory, LoopMemoryMut, PlaceMemory};

// What is read of a memory of eight places or more, after a vertex, an edge, a free place and a waiting loop are written.
fn read_back<M: PlaceMemory>(m: &mut M) -> [u16; 7]
    requires { (8 ≤ M.places) × (5 * M.places + 4 ≤ length (M.numbers m.old)) }
{
    m.set_vertex(3, 4096);
    m.store_edge(3, 7, 1);
    m.free_place(2, 5);
    m.wait_at(1, 7, 6);
    [
        m.vertex_of(3),
        m.after_of(3),
        m.before_of(7),
        m.open_of(3),
        m.free_at(3, 1),
        m.place_at(1),
        m.size_at(1),
    ]
}

// The same through what the operations ask.
fn read_lent<M: LoopMemoryMut>(m: &mut M) -> [u16; 7]
    requires { (8 ≤ M.places m.old) × (5 * M.places m.old + 4 ≤ length (M.numbers m.old)) }
{
    m.set_vertex(3, 4096);
    m.store_edge(3, 7, 1);
    m.free_place(2, 5);
    m.wait_at(1, 7, 6);
    [
        m.vertex_of(3),
        m.after_of(3),
        m.before_of(7),
        m.open_of(3),
        m.free_at(3, 1),
        m.place_at(1),
        m.size_at(1),
    ]
}

// What who lends a memory knows of it afterwards: by the reference that it was lent through.
fn set_fixed<M: PlaceMemory>(m: &mut M, v: u16)
    requires { (0 < M.places) × (v < M.vertex_end) }
    ensures { M.numbers m.new ≡ set (M.numbers m.old) 0 v }
{
    set_first(&mut FixedMut { memory: m }, v);
}

fn set_slice(m: &mut [u16], v: u16)
    requires { 4 ≤ length m.old }
    ensures { m.new ≡ set m.old 0 v }
{
    set_first(
        &mut PlaceSliceMut {
            memory: m,
            places: 1,
        },
        v,
    );
}

fn set_first<M: LoopMemoryMut>(m: &mut M, v: u16)
    requires { (0 < M.places m.old) × (v < M.vertex_end) }
    ensures value { M.numbers m.new ≡ set (M.numbers m.old) 0 v }
    ensures kept { M.lender m.new ≡ M.lender m.old }
{
    m.set_vertex(0, v);
}

const READ: [u16; 7] = [4096, 7, 3, 1, 5, 7, 6];

#[tactic(auto, using(cells_theory::proofs::Bytes::length_numbers))]
#[test]
fn memories_of_fixed_places(rt: HostRuntime) {
    let mut numbers = [0u16; 64];
    assert_eq!(rt; <[u16; 64] as PlaceMemory>::capacity(), 12);
    assert!(rt; read_back(&mut numbers) == READ);
    assert!(rt; PlaceMemory::is_open(&numbers, 3));
    let mut bytes = [0u8; BYTES];
    assert_eq!(rt; <[u8; BYTES] as PlaceMemory>::capacity(), 200);
    assert!(rt; read_back(&mut bytes) == READ);
    assert!(rt; !PlaceMemory::is_open(&bytes, 7));
}

#[tactic(auto, using(cells_theory::proofs::Bytes::length_numbers))]
#[test]
fn memories_lent_to_the_operations(rt: HostRuntime) {
    let mut numbers = [0u16; 64];
    let lent = read_lent(&mut FixedMut {
        memory: &mut numbers,
    });
    assert!(rt; lent == READ);
    assert_eq!(rt; numbers[12], 4096);
    set_fixed(&mut numbers, 3);
    assert_eq!(rt; numbers[0], 3);
    let fixed = Fixed { memory: &numbers };
    assert_eq!(rt; fixed.capacity(), 12);
    assert_eq!(rt; fixed.after_of(3), 7);
    let mut bytes = [0u8; BYTES];
    let lent = read_lent(&mut FixedMut { memory: &mut bytes });
    assert!(rt; lent == READ);
}

#[test]
fn slices_lent_to_the_operations(rt: HostRuntime) {
    let mut numbers = [0u16; 48];
    let lent = read_lent(&mut PlaceSliceMut {
        memory: &mut numbers,
        places: 8,
    });
    assert!(rt; lent == READ);
    set_slice(&mut numbers, 3);
    assert_eq!(rt; numbers[0], 3);
    let slice = PlaceSlice {
        memory: &numbers,
        places: 8,
    };
    assert_eq!(rt; slice.capacity(), 8);
    assert_eq!(rt; slice.free_at(3, 1), 5);
}

#[tactic(auto, using(cells_theory::proofs::Bytes::length_numbers))]
#[test]
fn the_stack_beyond_the_places(rt: HostRuntime) {
    let mut numbers = [0u16; 64];
    numbers.put_entry(14, 65535);
    assert_eq!(rt; numbers.entry_at(15, 1), 65535);
    let mut bytes = [0u8; BYTES];
    bytes.put_entry(201, 255);
    assert_eq!(rt; bytes.entry_at(202, 1), 255);
}
