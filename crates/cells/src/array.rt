// The plain memory in an array: as many places as its length gives room for, at most 1,024.
ghost use Rattle.std.specs.Prelude.{◌≡◌, ℕ, ◌+◌, ◌*◌, ◌/◌, ◌^◌, List, min};
ghost use Rattle.rules.specs.Limits.{max_places};
ghost use Rattle.cells.specs.Fits.{plain_fits, array_fits};

use crate::{FreeStack, FreeStackMut, LoopMemory, LoopMemoryMut, PlaceMemory, plain};
use cutborder::PLACES;

impl<const N: usize> LoopMemory for [u16; N] {
    ghost numbers = { λ m. m };

    ghost places = { λ m. min max_places (N / 5) };

    ghost records = { λ m. N / 4 };

    ghost lender = { λ m. 0 };

    ghost vertex_end = { 2 ^ 16 };

    ghost size_end = { 2 ^ 16 };

    ghost open_end = { 2 ^ 16 };

    ghost fits = { λ m. array_fits N };

    fn capacity(&self) -> usize {
        PLACES.min(N / 5)
    }

    fn vertex_of(&self, p: u16) -> u16 {
        plain::vertex_of(self, p)
    }

    fn before_of(&self, p: u16) -> u16 {
        plain::before_of(self, p)
    }

    fn after_of(&self, p: u16) -> u16 {
        plain::after_of(self, p)
    }

    fn open_of(&self, p: u16) -> u16 {
        plain::open_of(self, p)
    }

    fn free_at(&self, k: u16, below: u16) -> u16 {
        self.entry_at(k, below)
    }

    fn place_at(&self, l: u16) -> u16 {
        plain::place_at(self, LoopMemory::capacity(self), l)
    }

    fn size_at(&self, l: u16) -> u16 {
        plain::size_at(self, LoopMemory::capacity(self), l)
    }
}

impl<const N: usize> LoopMemoryMut for [u16; N] {
    fn set_vertex(&mut self, p: u16, v: u16) {
        plain::set_vertex(self, p, v);
    }

    fn store_edge(&mut self, x: u16, y: u16, o: u16) {
        plain::store_edge(self, x, y, o);
    }

    fn free_place(&mut self, k: u16, p: u16) {
        self.put_entry(k, p);
    }

    fn wait_at(&mut self, l: u16, p: u16, k: u16) {
        let n = LoopMemory::capacity(self);
        plain::wait_at(self, n, l, p, k);
    }
}

impl<const N: usize> FreeStack for [u16; N] {
    fn entry_at(&self, k: u16, below: u16) -> u16 {
        plain::free_at(self, LoopMemory::capacity(self), k, below)
    }
}

impl<const N: usize> FreeStackMut for [u16; N] {
    fn put_entry(&mut self, k: u16, p: u16) {
        let n = LoopMemory::capacity(self);
        plain::free_place(self, n, k, p);
    }
}

impl<const N: usize> PlaceMemory for [u16; N] {
    ghost numbers = { λ m. m };

    ghost places = { min max_places (N / 5) };

    ghost vertex_end = { 2 ^ 16 };

    ghost size_end = { 2 ^ 16 };

    ghost open_end = { 2 ^ 16 };

    ghost fits = { plain_fits N };

    fn capacity() -> usize {
        PLACES.min(N / 5)
    }

    fn vertex_of(&self, p: u16) -> u16 {
        LoopMemory::vertex_of(self, p)
    }

    fn before_of(&self, p: u16) -> u16 {
        LoopMemory::before_of(self, p)
    }

    fn after_of(&self, p: u16) -> u16 {
        LoopMemory::after_of(self, p)
    }

    fn open_of(&self, p: u16) -> u16 {
        LoopMemory::open_of(self, p)
    }

    fn set_vertex(&mut self, p: u16, v: u16) {
        LoopMemoryMut::set_vertex(self, p, v);
    }

    fn store_edge(&mut self, x: u16, y: u16, o: u16) {
        LoopMemoryMut::store_edge(self, x, y, o);
    }

    fn free_place(&mut self, k: u16, p: u16) {
        LoopMemoryMut::free_place(self, k, p);
    }

    fn free_at(&self, k: u16, below: u16) -> u16 {
        LoopMemory::free_at(self, k, below)
    }

    fn wait_at(&mut self, l: u16, p: u16, k: u16) {
        LoopMemoryMut::wait_at(self, l, p, k);
    }

    fn place_at(&self, l: u16) -> u16 {
        LoopMemory::place_at(self, l)
    }

    fn size_at(&self, l: u16) -> u16 {
        LoopMemory::size_at(self, l)
    }
}
