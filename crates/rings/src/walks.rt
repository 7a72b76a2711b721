// Loops over the places and the stacks of a memory. `as u16` narrows a capacity, which `fits` of `LoopMemory` bounds by `max_places`:
// `try_from` would be no plainer.
ghost use Rattle.std.specs.Prelude.{◌≡◌, ℕ, ◌+◌, ◌*◌, ◌-◌, ◌≤◌, ◌<◌, length};
ghost use Rattle.border_theory.specs.Memory.Fresh.{all_free};
ghost use Rattle.border_theory.specs.Memory.Layout.{walked, released, moved_down};

use cells::{LoopMemory, LoopMemoryMut};

/// Every place goes on the stack of free places.
pub fn free_all<M: LoopMemoryMut>(m: &mut M)
    requires { 5 * M.places m.old ≤ length (M.numbers m.old) }
    ensures value { M.numbers m.new ≡ all_free (M.places m.old) (M.numbers m.old) (M.places m.old) }
    ensures kept { (M.places m.new ≡ M.places m.old) × (M.records m.new ≡ M.records m.old)
        × (M.lender m.new ≡ M.lender m.old) }
{
    for i in 0..m.capacity() as u16 {
        m.free_place(i, i);
    }
}

/// The place i places after place p.
pub fn walk<M: LoopMemory>(m: &M, i: u16, p: u16) -> u16
    requires { (j : ℕ) → j < i → walked (M.numbers m.now) j p < M.records m.now }
    ensures { result ≡ walked (M.numbers m.now) i p }
{
    let mut at = p;
    for _ in 0..i {
        at = m.after_of(at);
    }
    at
}

/// The j places from place p on go on the stack of free places, which has k.
pub fn release<M: LoopMemoryMut>(m: &mut M, k: u16, j: u16, p: u16)
    requires room { (k + j ≤ M.places m.old) × (5 * M.places m.old ≤ length (M.numbers m.old)) }
    requires walks { (i : ℕ) → i < j → walked (M.numbers m.old) i p < M.places m.old }
    ensures value { M.numbers m.new ≡ released (M.places m.old) (M.numbers m.old) k j p }
    ensures kept { (M.places m.new ≡ M.places m.old) × (M.records m.new ≡ M.records m.old)
        × (M.lender m.new ≡ M.lender m.old) }
{
    let mut at = p;
    for i in 0..j {
        let next = m.after_of(at);
        m.free_place(k + i, at);
        at = next;
    }
}

/// The k loops that wait after l move down by one.
pub fn move_down<M: LoopMemoryMut>(m: &mut M, l: u16, k: u16)
    requires { (l + k < 65535) × (5 * M.places m.old + 2 * (l + k + 1) ≤ length (M.numbers m.old)) }
    ensures value { M.numbers m.new ≡ moved_down (M.places m.old) (M.numbers m.old) l k }
    ensures kept { (M.places m.new ≡ M.places m.old) × (M.records m.new ≡ M.records m.old)
        × (M.lender m.new ≡ M.lender m.old) }
{
    for to in l..l + k {
        let p = m.place_at(to + 1);
        let z = m.size_at(to + 1);
        m.wait_at(to, p, z);
    }
}
