// A live loop in a memory, read: where each reading ends stands in its contract, so that its callers need not show it.
ghost use Rattle.std.specs.Prelude.{◌≡◌, ◌+◌, ◌*◌, ◌≤◌, ◌<◌};
ghost use Rattle.border_theory.specs.Memory.Layout.{at, after_of, before_of, walked};
ghost use Rattle.border_theory.specs.Memory.Near.{Near};

use crate::walks::walk;
use cells::LoopMemory;
use cutborder::Loops;

/// A live loop in a memory. The places along its links and those of the waiting loops are in it.
#[derive(Drop)]
pub struct Live<'a, M: LoopMemory> {
    pub memory: &'a M,
    pub loops: Loops,
    ghost near: { Near (M.places memory.now) loops (M.numbers memory.now) },
}

impl<'a, M: LoopMemory> Live<'a, M> {
    /// The place where the current edge starts.
    pub fn current(&self) -> u16
        ensures value { result ≡ self.now.loops.current }
        ensures place { result < M.places self.now.memory.now }
        ensures record { result < M.records self.now.memory.now }
    {
        self.loops.current
    }

    /// The place after the current one.
    pub fn next(&self) -> u16
        ensures value { result ≡ after_of (M.numbers self.now.memory.now) self.now.loops.current }
        ensures place { result < M.places self.now.memory.now }
        ensures record { result < M.records self.now.memory.now }
    {
        self.memory.after_of(self.current())
    }

    /// The place after that.
    pub fn second(&self) -> u16
        ensures value { result ≡ after_of (M.numbers self.now.memory.now)
            (after_of (M.numbers self.now.memory.now) self.now.loops.current) }
        ensures place { result < M.places self.now.memory.now }
        ensures record { result < M.records self.now.memory.now }
    {
        self.memory.after_of(self.next())
    }

    /// The place before the current one.
    pub fn last(&self) -> u16
        ensures value { result ≡ before_of (M.numbers self.now.memory.now) self.now.loops.current }
        ensures place { result < M.places self.now.memory.now }
        ensures record { result < M.records self.now.memory.now }
    {
        self.memory.before_of(self.current())
    }

    /// The place i places after the next one.
    pub fn along(&self, i: u16) -> u16
        requires { i + 2 ≤ self.now.loops.size }
        ensures value { result ≡ walked (M.numbers self.now.memory.now) i
            (after_of (M.numbers self.now.memory.now) self.now.loops.current) }
        ensures place { result < M.places self.now.memory.now }
        ensures record { result < M.records self.now.memory.now }
    {
        walk(self.memory, i, self.next())
    }

    /// How many places the loop has that waits at w.
    pub fn waiting_size(&self, w: u16) -> u16
        requires { w + 2 ≤ self.now.loops.live }
        ensures { result ≡ at (M.numbers self.now.memory.now) (5 * M.places self.now.memory.now + 2 * w + 1) }
    {
        self.memory.size_at(w)
    }

    /// Its place j places after the start of its current edge.
    pub fn waiting_place(&self, w: u16, j: u16) -> u16
        requires { (w + 2 ≤ self.now.loops.live)
            × (j < at (M.numbers self.now.memory.now) (5 * M.places self.now.memory.now + 2 * w + 1)) }
        ensures value { result ≡ walked (M.numbers self.now.memory.now) j
            (at (M.numbers self.now.memory.now) (5 * M.places self.now.memory.now + 2 * w)) }
        ensures place { result < M.places self.now.memory.now }
        ensures record { result < M.records self.now.memory.now }
    {
        walk(self.memory, j, self.memory.place_at(w))
    }
}
