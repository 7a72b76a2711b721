// The plain memory in a slice of any length, with the number of its places beside it: to be read, and to be written too.
ghost use Rattle.std.specs.Prelude.{◌≡◌, ℕ, ◌*◌, ◌/◌, ◌^◌, ◌≤◌, length};
ghost use Rattle.rules.specs.Limits.{max_places};
ghost use Rattle.cells.specs.Fits.{slice_fits};

use crate::{FreeStack, FreeStackMut, LoopMemory, LoopMemoryMut, plain};

/// The numbers of a cut-border of some places, lent to be read: at most 1,024 places, and a record for each.
#[derive(Drop)]
pub struct PlaceSlice<'a> {
    pub memory: &'a [u16],
    pub places: usize,
    ghost room: { (places ≤ max_places) × (4 * places ≤ length memory.now) },
}

impl<'a> LoopMemory for PlaceSlice<'a> {
    ghost numbers = { λ m. m.memory.now };

    ghost places = { λ m. m.places };

    ghost records = { λ m. length m.memory.now / 4 };

    ghost lender = { λ m. 0 };

    ghost vertex_end = { 2 ^ 16 };

    ghost size_end = { 2 ^ 16 };

    ghost open_end = { 2 ^ 16 };

    ghost fits = { λ m. slice_fits m.places (length m.memory.now) m.room };

    fn capacity(&self) -> usize {
        self.places
    }

    fn vertex_of(&self, p: u16) -> u16 {
        plain::vertex_of(self.memory, p)
    }

    fn before_of(&self, p: u16) -> u16 {
        plain::before_of(self.memory, p)
    }

    fn after_of(&self, p: u16) -> u16 {
        plain::after_of(self.memory, p)
    }

    fn open_of(&self, p: u16) -> u16 {
        plain::open_of(self.memory, p)
    }

    fn free_at(&self, k: u16, below: u16) -> u16 {
        self.entry_at(k, below)
    }

    fn place_at(&self, l: u16) -> u16 {
        plain::place_at(self.memory, self.places, l)
    }

    fn size_at(&self, l: u16) -> u16 {
        plain::size_at(self.memory, self.places, l)
    }
}

impl<'a> FreeStack for PlaceSlice<'a> {
    fn entry_at(&self, k: u16, below: u16) -> u16 {
        plain::free_at(self.memory, self.places, k, below)
    }
}

/// The same, lent to be written too.
#[derive(Drop)]
pub struct PlaceSliceMut<'a> {
    pub memory: &'a mut [u16],
    pub places: usize,
    ghost room: { (places ≤ max_places) × (4 * places ≤ length memory.now) },
}

impl<'a> LoopMemory for PlaceSliceMut<'a> {
    ghost numbers = { λ m. m.memory.now };

    ghost places = { λ m. m.places };

    ghost records = { λ m. length m.memory.now / 4 };

    ghost lender = { λ m. m.memory.ghost_name };

    ghost vertex_end = { 2 ^ 16 };

    ghost size_end = { 2 ^ 16 };

    ghost open_end = { 2 ^ 16 };

    ghost fits = { λ m. slice_fits m.places (length m.memory.now) m.room };

    fn capacity(&self) -> usize {
        self.places
    }

    fn vertex_of(&self, p: u16) -> u16 {
        plain::vertex_of(self.memory, p)
    }

    fn before_of(&self, p: u16) -> u16 {
        plain::before_of(self.memory, p)
    }

    fn after_of(&self, p: u16) -> u16 {
        plain::after_of(self.memory, p)
    }

    fn open_of(&self, p: u16) -> u16 {
        plain::open_of(self.memory, p)
    }

    fn free_at(&self, k: u16, below: u16) -> u16 {
        self.entry_at(k, below)
    }

    fn place_at(&self, l: u16) -> u16 {
        plain::place_at(self.memory, self.places, l)
    }

    fn size_at(&self, l: u16) -> u16 {
        plain::size_at(self.memory, self.places, l)
    }
}

impl<'a> LoopMemoryMut for PlaceSliceMut<'a> {
    fn set_vertex(&mut self, p: u16, v: u16) {
        plain::set_vertex(self.memory, p, v);
    }

    fn store_edge(&mut self, x: u16, y: u16, o: u16) {
        plain::store_edge(self.memory, x, y, o);
    }

    fn free_place(&mut self, k: u16, p: u16) {
        self.put_entry(k, p);
    }

    fn wait_at(&mut self, l: u16, p: u16, k: u16) {
        plain::wait_at(self.memory, self.places, l, p, k);
    }
}

impl<'a> FreeStack for PlaceSliceMut<'a> {
    fn entry_at(&self, k: u16, below: u16) -> u16 {
        plain::free_at(self.memory, self.places, k, below)
    }
}

impl<'a> FreeStackMut for PlaceSliceMut<'a> {
    fn put_entry(&mut self, k: u16, p: u16) {
        plain::free_place(self.memory, self.places, k, p);
    }
}
