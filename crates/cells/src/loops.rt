// What the operations of a cut-border ask of its memory, to read it and to write it; and the memories whose stack of free places can be
// read and written beyond the places.
ghost use Rattle.std.specs.Prelude.{◌≡◌, ℕ, ◌+◌, ◌*◌, ◌-◌, ◌≤◌, ◌<◌, List, set, length};
ghost use Rattle.rules.specs.Limits.{max_places, max_vertices};
ghost use Rattle.border_theory.specs.Memory.Decision.{is_open_at};
ghost use Rattle.border_theory.specs.Memory.Layout.{at, vertex_of, before_of, after_of, open_of, edge_stored, freed, waits};

/// The places of a cut-border, the stack of the free ones and the waiting loops, to be read: what the operations ask of a memory, whose
/// value says how many places it has.
pub trait LoopMemory {
    // The numbers that it stands for, as the plain memory keeps them.
    ghost numbers: { Self → List ℕ };

    // How many places it has.
    ghost places: { Self → ℕ };

    // How many places' records can be read and written in it: those of its places, and maybe of more.
    ghost records: { Self → ℕ };

    // The reference that its numbers lie behind, by which a caller that lends them knows what they are afterwards; 0 where they are its
    // own.
    ghost lender: { Self → ℕ };

    // What it can hold: a vertex, a place or size that waits, and a mark of an edge below these.
    ghost vertex_end: { ℕ };

    ghost size_end: { ℕ };

    ghost open_end: { ℕ };

    /// How many places it has.
    fn capacity(&self) -> usize
        ensures { result ≡ places self.now };

    /// The vertex of place p.
    fn vertex_of(&self, p: u16) -> u16
        requires { p < records self.now }
        ensures value { result ≡ vertex_of (numbers self.now) p }
        ensures small { result < vertex_end };

    /// The place before place p in its loop.
    fn before_of(&self, p: u16) -> u16
        requires { p < records self.now }
        ensures { result ≡ before_of (numbers self.now) p };

    /// The place after place p in its loop.
    fn after_of(&self, p: u16) -> u16
        requires { p < records self.now }
        ensures { result ≡ after_of (numbers self.now) p };

    // The mark of an edge stays a number here and in `store_edge`: `open_of` and `edge_stored` of Layout speak of it, and the plain
    // memory may hold more than 1 (its `open_end` is 65,536), which `doubled` of Memory/Moves stores again as it was read.
    /// 1 if the edge from place p on is open, else 0.
    fn open_of(&self, p: u16) -> u16
        requires { p < records self.now }
        ensures value { result ≡ open_of (numbers self.now) p }
        ensures small { result < open_end };

    /// The free place below the top ones: of k free places the one with `below` of them above it.
    fn free_at(&self, k: u16, below: u16) -> u16
        requires { (k ≤ places self.now) × (below ≤ k) × (1 ≤ below) × (4 * places self.now + k ≤ length (numbers self.now)) }
        ensures { result ≡ at (numbers self.now) (4 * places self.now + (k - below)) };

    /// The place where the current edge of the loop that waits at l starts.
    fn place_at(&self, l: u16) -> u16
        requires { 5 * places self.now + 2 * l + 1 < length (numbers self.now) }
        ensures value { result ≡ at (numbers self.now) (5 * places self.now + 2 * l) }
        ensures small { result < size_end };

    /// How many places that loop has.
    fn size_at(&self, l: u16) -> u16
        requires { 5 * places self.now + 2 * l + 1 < length (numbers self.now) }
        ensures value { result ≡ at (numbers self.now) (5 * places self.now + 2 * l + 1) }
        ensures small { result < size_end };

    /// Whether the edge from place p on is open.
    final fn is_open(&self, p: u16) -> bool
        requires { p < records self.now }
        ensures { result ≡ is_open_at (numbers self.now) p }
    {
        self.open_of(p) == 1
    }

    // Each kind of memory has a record for each place, and room for what the operations store.
    ghost fits: { (m : Self) → (places m ≤ records m) × (places m ≤ max_places) × (places m < size_end)
        × (max_vertices + 2 < vertex_end) × (1 < open_end) };
}

/// The same, to be written too.
pub trait LoopMemoryMut: LoopMemory {
    /// Place p gets vertex v.
    fn set_vertex(&mut self, p: u16, v: u16)
        requires { (p < Self.records self.old) × (v < Self.vertex_end) }
        ensures value { Self.numbers self.new ≡ set (Self.numbers self.old) (4 * p) v }
        ensures long { length (Self.numbers self.new) ≡ length (Self.numbers self.old) }
        ensures kept { (Self.places self.new ≡ Self.places self.old) × (Self.records self.new ≡ Self.records self.old)
            × (Self.lender self.new ≡ Self.lender self.old) };

    /// The edge from place x to place y is stored, open if o is 1.
    fn store_edge(&mut self, x: u16, y: u16, o: u16)
        requires { (x < Self.records self.old) × (y < Self.records self.old) × (o < Self.open_end) }
        ensures value { Self.numbers self.new ≡ edge_stored (Self.numbers self.old) x y o }
        ensures long { length (Self.numbers self.new) ≡ length (Self.numbers self.old) }
        ensures kept { (Self.places self.new ≡ Self.places self.old) × (Self.records self.new ≡ Self.records self.old)
            × (Self.lender self.new ≡ Self.lender self.old) };

    /// Place p goes on the stack of free places, which has k.
    fn free_place(&mut self, k: u16, p: u16)
        requires { (k < Self.places self.old) × (p < Self.places self.old) × (5 * Self.places self.old ≤ length (Self.numbers self.old)) }
        ensures value { Self.numbers self.new ≡ freed (Self.places self.old) (Self.numbers self.old) k p }
        ensures long { length (Self.numbers self.new) ≡ length (Self.numbers self.old) }
        ensures kept { (Self.places self.new ≡ Self.places self.old) × (Self.records self.new ≡ Self.records self.old)
            × (Self.lender self.new ≡ Self.lender self.old) };

    /// A loop of k places whose current edge starts at place p waits at l.
    fn wait_at(&mut self, l: u16, p: u16, k: u16)
        requires { (5 * Self.places self.old + 2 * l + 1 < length (Self.numbers self.old)) × (p < Self.size_end) × (k < Self.size_end) }
        ensures value { Self.numbers self.new ≡ waits (Self.places self.old) (Self.numbers self.old) l p k }
        ensures long { length (Self.numbers self.new) ≡ length (Self.numbers self.old) }
        ensures kept { (Self.places self.new ≡ Self.places self.old) × (Self.records self.new ≡ Self.records self.old)
            × (Self.lender self.new ≡ Self.lender self.old) };
}

/// A memory whose stack of free places is read as far as its numbers go.
pub trait FreeStack: LoopMemory {
    /// As `free_at`, where k may be more than the places.
    fn entry_at(&self, k: u16, below: u16) -> u16
        requires { (below ≤ k) × (1 ≤ below) × (4 * Self.places self.now + k ≤ length (Self.numbers self.now)) }
        ensures { result ≡ at (Self.numbers self.now) (4 * Self.places self.now + (k - below)) };
}

/// The same, to be written too.
pub trait FreeStackMut: FreeStack + LoopMemoryMut {
    /// As `free_place`, where k and p may be more than the places.
    fn put_entry(&mut self, k: u16, p: u16)
        requires { (4 * Self.places self.old + k < length (Self.numbers self.old)) × (p < Self.size_end) }
        ensures value { Self.numbers self.new ≡ freed (Self.places self.old) (Self.numbers self.old) k p }
        ensures long { length (Self.numbers self.new) ≡ length (Self.numbers self.old) }
        ensures kept { (Self.places self.new ≡ Self.places self.old) × (Self.records self.new ≡ Self.records self.old)
            × (Self.lender self.new ≡ Self.lender self.old) };
}
