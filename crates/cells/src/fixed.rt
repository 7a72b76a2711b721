// A memory whose type says how many places it has, lent to the operations: to be read, and to be written too. The operations then ask no
// more of who keeps it than `PlaceMemory` has.
ghost use Rattle.std.specs.Prelude.{◌≡◌, ℕ};
ghost use Rattle.cells.specs.Fits.{fixed_fits};

use crate::{LoopMemory, LoopMemoryMut, PlaceMemory};

/// A memory whose type says how many places it has, lent to be read.
#[derive(Drop)]
pub struct Fixed<'a, M: PlaceMemory> {
    pub memory: &'a M,
}

impl<'a, M: PlaceMemory> LoopMemory for Fixed<'a, M> {
    ghost numbers = { λ m. M.numbers m.memory.now };

    ghost places = { λ m. M.places };

    ghost records = { λ m. M.places };

    ghost lender = { λ m. 0 };

    ghost vertex_end = { M.vertex_end };

    ghost size_end = { M.size_end };

    ghost open_end = { M.open_end };

    ghost fits = { λ m. fixed_fits _ _ _ _ M.fits };

    fn capacity(&self) -> usize {
        M::capacity()
    }

    fn vertex_of(&self, p: u16) -> u16 {
        self.memory.vertex_of(p)
    }

    fn before_of(&self, p: u16) -> u16 {
        self.memory.before_of(p)
    }

    fn after_of(&self, p: u16) -> u16 {
        self.memory.after_of(p)
    }

    fn open_of(&self, p: u16) -> u16 {
        self.memory.open_of(p)
    }

    fn free_at(&self, k: u16, below: u16) -> u16 {
        self.memory.free_at(k, below)
    }

    fn place_at(&self, l: u16) -> u16 {
        self.memory.place_at(l)
    }

    fn size_at(&self, l: u16) -> u16 {
        self.memory.size_at(l)
    }
}

/// The same, lent to be written too.
#[derive(Drop)]
pub struct FixedMut<'a, M: PlaceMemory> {
    pub memory: &'a mut M,
}

impl<'a, M: PlaceMemory> FixedMut<'a, M> {
    // The same, to be read.
    fn read(&self) -> Fixed<'_, M>
        ensures { result.memory.now ≡ self.now.memory.now }
    {
        Fixed {
            memory: self.memory,
        }
    }
}

impl<'a, M: PlaceMemory> LoopMemory for FixedMut<'a, M> {
    ghost numbers = { λ m. M.numbers m.memory.now };

    ghost places = { λ m. M.places };

    ghost records = { λ m. M.places };

    ghost lender = { λ m. m.memory.ghost_name };

    ghost vertex_end = { M.vertex_end };

    ghost size_end = { M.size_end };

    ghost open_end = { M.open_end };

    ghost fits = { λ m. fixed_fits _ _ _ _ M.fits };

    fn capacity(&self) -> usize {
        M::capacity()
    }

    fn vertex_of(&self, p: u16) -> u16 {
        self.read().vertex_of(p)
    }

    fn before_of(&self, p: u16) -> u16 {
        self.read().before_of(p)
    }

    fn after_of(&self, p: u16) -> u16 {
        self.read().after_of(p)
    }

    fn open_of(&self, p: u16) -> u16 {
        self.read().open_of(p)
    }

    fn free_at(&self, k: u16, below: u16) -> u16 {
        self.read().free_at(k, below)
    }

    fn place_at(&self, l: u16) -> u16 {
        self.read().place_at(l)
    }

    fn size_at(&self, l: u16) -> u16 {
        self.read().size_at(l)
    }
}

impl<'a, M: PlaceMemory> LoopMemoryMut for FixedMut<'a, M> {
    fn set_vertex(&mut self, p: u16, v: u16) {
        self.memory.set_vertex(p, v);
    }

    fn store_edge(&mut self, x: u16, y: u16, o: u16) {
        self.memory.store_edge(x, y, o);
    }

    fn free_place(&mut self, k: u16, p: u16) {
        self.memory.free_place(k, p);
    }

    fn wait_at(&mut self, l: u16, p: u16, k: u16) {
        self.memory.wait_at(l, p, k);
    }
}
