// The memory of a cut-border: what reads and writes it, whatever it is made of, and the kinds that there are. The contracts say what each
// function does to the numbers that a memory stands for, in the words of border_theory/specs/Memory/Layout.
//
// Here stands the memory whose type says how many places it has. `loops` has what the operations ask of any memory, and `fixed` lends
// the one for the other.
#![tactic(auto)]

mod array; // the plain memory in an array
mod bytes; // the bytes of the furnace's own reader
pub mod fixed; // a memory whose type says its places, lent to the operations
mod loops; // what the operations ask of a memory
pub mod plain; // the numbers of the plain memory, read and written in a slice
pub mod slices; // the plain memory in a slice, with the number of its places
#[cfg(test)]
mod tests; // what was written is read

ghost use Rattle.std.specs.Prelude.{◌≡◌, ℕ, ◌+◌, ◌*◌, ◌-◌, ◌≤◌, ◌<◌, List, set, length};
ghost use Rattle.rules.specs.Limits.{max_places, max_vertices};
ghost use Rattle.border_theory.specs.Memory.Decision.{is_open_at};
ghost use Rattle.border_theory.specs.Memory.Layout.{at, vertex_of, before_of, after_of, open_of, edge_stored, freed, waits};

pub use bytes::BYTES;
pub use loops::{FreeStack, FreeStackMut, LoopMemory, LoopMemoryMut};

/// The places of a cut-border, the stack of the free ones and the waiting loops, however they are kept.
pub trait PlaceMemory {
    // The numbers that it stands for, as the plain memory keeps them.
    ghost numbers: { Self → List ℕ };

    // How many places it has.
    ghost places: { ℕ };

    // What it can hold: a vertex, a place or size that waits, and a mark of an edge below these.
    ghost vertex_end: { ℕ };

    ghost size_end: { ℕ };

    ghost open_end: { ℕ };

    /// How many places it has.
    fn capacity() -> usize
        ensures { result ≡ places };

    /// The vertex of place p.
    fn vertex_of(&self, p: u16) -> u16
        requires { p < places }
        ensures value { result ≡ vertex_of (numbers self.now) p }
        ensures small { result < vertex_end };

    /// The place before place p in its loop.
    fn before_of(&self, p: u16) -> u16
        requires { p < places }
        ensures { result ≡ before_of (numbers self.now) p };

    /// The place after place p in its loop.
    fn after_of(&self, p: u16) -> u16
        requires { p < places }
        ensures { result ≡ after_of (numbers self.now) p };

    // The mark of an edge stays a number here and in `store_edge`: `open_of` and `edge_stored` of Layout speak of it, and the plain
    // memory may hold more than 1 (its `open_end` is 65,536), which `doubled` of Memory/Moves stores again as it was read.
    /// 1 if the edge from place p on is open, else 0.
    fn open_of(&self, p: u16) -> u16
        requires { p < places }
        ensures value { result ≡ open_of (numbers self.now) p }
        ensures small { result < open_end };

    /// Place p gets vertex v.
    fn set_vertex(&mut self, p: u16, v: u16)
        requires { (p < places) × (v < vertex_end) }
        ensures value { numbers self.new ≡ set (numbers self.old) (4 * p) v }
        ensures long { length (numbers self.new) ≡ length (numbers self.old) };

    /// The edge from place x to place y is stored, open if o is 1.
    fn store_edge(&mut self, x: u16, y: u16, o: u16)
        requires { (x < places) × (y < places) × (o < open_end) }
        ensures value { numbers self.new ≡ edge_stored (numbers self.old) x y o }
        ensures long { length (numbers self.new) ≡ length (numbers self.old) };

    /// Place p goes on the stack of free places, which has k.
    fn free_place(&mut self, k: u16, p: u16)
        requires { (k < places) × (p < places) × (5 * places ≤ length (numbers self.old)) }
        ensures value { numbers self.new ≡ freed places (numbers self.old) k p }
        ensures long { length (numbers self.new) ≡ length (numbers self.old) };

    /// The free place below the top ones: of k free places the one with `below` of them above it.
    fn free_at(&self, k: u16, below: u16) -> u16
        requires { (k ≤ places) × (below ≤ k) × (1 ≤ below) }
        ensures { result ≡ at (numbers self.now) (4 * places + (k - below)) };

    /// A loop of k places whose current edge starts at place p waits at l.
    fn wait_at(&mut self, l: u16, p: u16, k: u16)
        requires { (5 * places + 2 * l + 1 < length (numbers self.old)) × (p < size_end) × (k < size_end) }
        ensures value { numbers self.new ≡ waits places (numbers self.old) l p k }
        ensures long { length (numbers self.new) ≡ length (numbers self.old) };

    /// The place where the current edge of the loop that waits at l starts.
    fn place_at(&self, l: u16) -> u16
        requires { 5 * places + 2 * l + 1 < length (numbers self.now) }
        ensures value { result ≡ at (numbers self.now) (5 * places + 2 * l) }
        ensures small { result < size_end };

    /// How many places that loop has.
    fn size_at(&self, l: u16) -> u16
        requires { 5 * places + 2 * l + 1 < length (numbers self.now) }
        ensures value { result ≡ at (numbers self.now) (5 * places + 2 * l + 1) }
        ensures small { result < size_end };

    /// Whether the edge from place p on is open.
    final fn is_open(&self, p: u16) -> bool
        requires { p < places }
        ensures { result ≡ is_open_at (numbers self.now) p }
    {
        self.open_of(p) == 1
    }

    // Each kind of memory has room for what the operations store.
    ghost fits: { (places ≤ max_places) × (places < size_end) × (max_vertices + 2 < vertex_end) × (1 < open_end) };
}
