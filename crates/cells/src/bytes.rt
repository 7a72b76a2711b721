// The bytes of the furnace's own reader, which stand for the numbers that cells_theory/specs/Bytes tells: a place has four, the low one of
// its vertex, the place before, the place after, and twice the rest of the vertex, plus 1 if its edge is open; all else has one. Where a
// number is narrowed by `as`, the trait's clause bounds it: `try_from` would be no plainer.
ghost use Rattle.std.specs.Prelude.{◌≡◌, ℕ, ◌+◌, ◌*◌, List};
ghost use Rattle.rules.specs.Limits.{furnace_places};
ghost use Rattle.cells_theory.specs.Bytes.{numbers};
ghost use Rattle.cells.specs.Fits.{bytes_fit, reader_fits};

use crate::{FreeStack, FreeStackMut, LoopMemory, LoopMemoryMut, PlaceMemory};
use rules::{FURNACE_LOOPS, FURNACE_PLACES};

// The free places stand from here on, then the waiting loops.
const FREE: usize = 4 * FURNACE_PLACES;

const WAITING: usize = 5 * FURNACE_PLACES;

/// How many bytes it has.
pub const BYTES: usize = WAITING + 2 * FURNACE_LOOPS;

impl LoopMemory for [u8; BYTES] {
    ghost numbers = { λ m. numbers m };

    ghost places = { λ m. furnace_places };

    ghost records = { λ m. furnace_places };

    ghost lender = { λ m. 0 };

    ghost vertex_end = { 32768 };

    ghost size_end = { 256 };

    ghost open_end = { 2 };

    ghost fits = { λ m. reader_fits };

    fn capacity(&self) -> usize {
        FURNACE_PLACES
    }

    #[tactic(auto, using(cells_theory::proofs::Bytes::vertex_is))]
    fn vertex_of(&self, p: u16) -> u16 {
        let at = 4 * usize::from(p);
        u16::from_be_bytes([self[at + 3] / 2, self[at]])
    }

    #[tactic(auto, using(cells_theory::proofs::Cells::before_told))]
    fn before_of(&self, p: u16) -> u16 {
        u16::from(self[4 * usize::from(p) + 1])
    }

    #[tactic(auto, using(cells_theory::proofs::Cells::after_told))]
    fn after_of(&self, p: u16) -> u16 {
        u16::from(self[4 * usize::from(p) + 2])
    }

    #[tactic(auto, using(cells_theory::proofs::Bytes::open_is_lem))]
    fn open_of(&self, p: u16) -> u16 {
        u16::from(self[4 * usize::from(p) + 3] % 2)
    }

    fn free_at(&self, k: u16, below: u16) -> u16 {
        self.entry_at(k, below)
    }

    #[tactic(auto, using(cells_theory::proofs::Cells::past_told, cells_theory::proofs::Bytes::length_numbers))]
    fn place_at(&self, l: u16) -> u16 {
        u16::from(self[WAITING + 2 * usize::from(l)])
    }

    #[tactic(auto, using(cells_theory::proofs::Cells::past_told, cells_theory::proofs::Bytes::length_numbers))]
    fn size_at(&self, l: u16) -> u16 {
        u16::from(self[WAITING + 2 * usize::from(l) + 1])
    }
}

impl LoopMemoryMut for [u8; BYTES] {
    #[tactic(auto, using(cells_theory::proofs::Cells::vertex_stored))]
    fn set_vertex(&mut self, p: u16, v: u16) {
        let at = 4 * usize::from(p);
        // Not by `to_be_bytes`: tried, its two bytes were not found to be these.
        let rest = 2 * ((v / 256) as u8) + self[at + 3] % 2;
        self[at] = (v % 256) as u8;
        self[at + 3] = rest;
    }

    #[tactic(auto, using(cells_theory::proofs::Cells::edge_stored_lem))]
    fn store_edge(&mut self, x: u16, y: u16, o: u16) {
        let from = 4 * usize::from(x);
        self[from + 2] = y as u8;
        self[4 * usize::from(y) + 1] = x as u8;
        self[from + 3] = 2 * (self[from + 3] / 2) + o as u8;
    }

    fn free_place(&mut self, k: u16, p: u16) {
        self.put_entry(k, p);
    }

    #[tactic(auto, using(cells_theory::proofs::Cells::wait_stored, cells_theory::proofs::Bytes::length_numbers))]
    fn wait_at(&mut self, l: u16, p: u16, k: u16) {
        let at = WAITING + 2 * usize::from(l);
        self[at] = p as u8;
        self[at + 1] = k as u8;
    }
}

impl FreeStack for [u8; BYTES] {
    #[tactic(auto, using(cells_theory::proofs::Cells::past_told, cells_theory::proofs::Bytes::length_numbers))]
    fn entry_at(&self, k: u16, below: u16) -> u16 {
        u16::from(self[FREE + usize::from(k - below)])
    }
}

impl FreeStackMut for [u8; BYTES] {
    #[tactic(auto, using(cells_theory::proofs::Cells::free_stored, cells_theory::proofs::Bytes::length_numbers))]
    fn put_entry(&mut self, k: u16, p: u16) {
        self[FREE + usize::from(k)] = p as u8;
    }
}

impl PlaceMemory for [u8; BYTES] {
    ghost numbers = { λ m. numbers m };

    ghost places = { furnace_places };

    ghost vertex_end = { 32768 };

    ghost size_end = { 256 };

    ghost open_end = { 2 };

    ghost fits = { bytes_fit };

    fn capacity() -> usize {
        FURNACE_PLACES
    }

    fn vertex_of(&self, p: u16) -> u16 {
        LoopMemory::vertex_of(self, p)
    }

    fn before_of(&self, p: u16) -> u16 {
        LoopMemory::before_of(self, p)
    }

    fn after_of(&self, p: u16) -> u16 {
        LoopMemory::after_of(self, p)
    }

    fn open_of(&self, p: u16) -> u16 {
        LoopMemory::open_of(self, p)
    }

    fn set_vertex(&mut self, p: u16, v: u16) {
        LoopMemoryMut::set_vertex(self, p, v);
    }

    fn store_edge(&mut self, x: u16, y: u16, o: u16) {
        LoopMemoryMut::store_edge(self, x, y, o);
    }

    fn free_place(&mut self, k: u16, p: u16) {
        LoopMemoryMut::free_place(self, k, p);
    }

    #[tactic(auto, using(cells_theory::proofs::Bytes::length_numbers))]
    fn free_at(&self, k: u16, below: u16) -> u16 {
        LoopMemory::free_at(self, k, below)
    }

    fn wait_at(&mut self, l: u16, p: u16, k: u16) {
        LoopMemoryMut::wait_at(self, l, p, k);
    }

    fn place_at(&self, l: u16) -> u16 {
        LoopMemory::place_at(self, l)
    }

    fn size_at(&self, l: u16) -> u16 {
        LoopMemory::size_at(self, l)
    }
}
