// The types of the running state, beside the plain memory: of the cut-border itself, of a packing, of an unpacking and of the furnace's own
// reader. Their meaning stands in the theory crates: border_theory, state_theory, pack_theory, unpack_theory and melting_theory.
#![tactic(auto)]

use rules::{Builder, Counts, Operation, Peaks, TRIANGLES, Triangle};

// All loops together have at most so many places.
pub const PLACES: usize = Builder::MAX_PLACES;

// The plain memory: four numbers for each of so many records, then a stack of the free places, then two numbers for each waiting loop.
// That is what the core works on. Past it stands what an operation notes: how many records it linked and which, at most five, and from
// where to where the stack holds those that it freed.
pub const RECORDS: usize = 4 * PLACES;

// The waiting loops' numbers stand from here on, the oldest loop's first: where its current edge starts, and how many places it has.
pub const WAITING: usize = RECORDS + PLACES;

pub const CORE: usize = WAITING + 2 * Builder::MAX_LOOPS;

pub const LINKED: usize = CORE;

pub const FREED: usize = CORE + 6;

pub const NUMBERS: usize = CORE + 8;

pub type Memory = [u16; NUMBERS];

// The loops in the memory: how many are live, the place where the current edge starts, how many places the current loop
// has, and how many places are free.
#[derive(Clone, Copy)]
pub struct Loops {
    pub live: u16,
    pub current: u16,
    pub size: u16,
    pub free: u16,
}

// The counts, and the loops.
#[derive(Clone, Copy)]
pub struct Front {
    pub stated: Counts,
    pub used: u16,
    pub built: u16,
    pub peaks: Peaks,
    pub edges: u16,
    pub starts: u16,
    pub unions: u16,
    pub rims: u16,
    pub loops: Loops,
}

// A triangle p q r to be built: whether each of its sides p→q, q→r and r→p is a new edge (1) or glues one (0), how many of
// its numbers are new, how many starts and unions it adds, and the place of its third vertex where a split or a union needs it.
// The sides stay numbers: `new_plan` to `start_plan` of border_theory/specs/Memory/Decision give them, and `count_built` adds them up. The
// place stays one too, 0 where none is needed: `plan_at` and `start_plan` there have it so.
#[derive(Clone, Copy)]
pub struct Plan {
    pub triangle: Triangle,
    pub pq: u16,
    pub qr: u16,
    pub rp: u16,
    pub vertices: u16,
    pub starts: u16,
    pub unions: u16,
    pub place: u16,
}

// The places whose records an operation writes: how many they are, and which.
// Five numbers by name and a count, as `listed` of border_theory/specs/Memory/Touched has them: a fixed row, since there is no heap.
#[derive(Clone, Copy)]
pub struct Touched {
    pub count: u16,
    pub first: u16,
    pub second: u16,
    pub third: u16,
    pub fourth: u16,
    pub fifth: u16,
}

// What an allowed operation would do: build a triangle, or mark the edge from one vertex to another as border.
#[derive(Clone, Copy)]
pub enum Action {
    Builds(Plan),
    Marks(u16, u16),
}

// Which triangles of a list are built: the flag of triangle t stands at t, 0 while it is not.
// A flag stays a number: `flag_of` of pack_theory/specs/Choosing/Choosable reads it.
pub type Flags = [u8; TRIANGLES];

// Where an open edge starts: the loop's number, 0 the current one, how many places that loop has, and how many places after
// the loop's first one.
// The loop's number stays one, 0 included: `seated_of` of pack_theory/specs/Choosing/Seat has it so.
#[derive(Clone, Copy, Debug, PartialEq, Eq)]
pub struct Seat {
    pub number: u16,
    pub size: u16,
    pub index: u16,
}

// Where a packing is: the counts and the loops, whose vertices are the list's own numbers; how many new numbers are given; and a
// triangle below which none is left.
#[derive(Clone, Copy)]
pub struct Course {
    pub front: Front,
    pub given: u16,
    pub lowest: u16,
}

// What is taken at the current edge: the operation, the third vertex, and whether that gets the next number.
#[derive(Clone, Copy)]
pub struct Move {
    pub operation: Operation,
    pub vertex: u16,
    pub fresh: bool,
}

// Where a reading of the furnace's own reader is: the bit position of the next operation, the counts and the loops, and the sum of the
// triangles' determinants.
#[derive(Clone, Copy)]
pub struct Melt {
    pub at: usize,
    pub front: Front,
    pub six: i64,
}
