// The types of the service: what its calls take, hold and answer. Their meaning stands in specs/. What callers in other languages
// lend too, place records and builders, lies in memory as C lays it out (`repr(C)`).
#![tactic(auto)]

pub mod refusal; // why a call is refused

ghost use Rattle.std.specs.Prelude.{◌≡◌};
ghost use Rattle.rules.specs.Build.{empty_builder};

// The most vertices of a model, the most triangles, and the most numbers of its list.
pub const VERTICES: usize = 4096;

pub const TRIANGLES: usize = 8192;

pub const CORNERS: usize = 3 * TRIANGLES;

// The most bytes of a note.
pub const MOST_NOTE: usize = 64;

// The most places and loops that the furnace's own reader keeps.
pub const FURNACE_PLACES: usize = 200;

pub const FURNACE_LOOPS: usize = 12;

// A triangle p q r has the directed edges p→q, q→r and r→p.
#[derive(Clone, Copy, Debug, PartialEq, Eq)]
pub struct Triangle {
    pub p: u16,
    pub q: u16,
    pub r: u16,
}

// Where a vertex is.
#[derive(Clone, Copy, Debug, PartialEq, Eq)]
pub struct Point {
    pub x: i64,
    pub y: i64,
    pub z: i64,
}

// The counts that a pack or a beginning states.
#[repr(C)]
#[derive(Clone, Copy, Debug, PartialEq, Eq)]
pub struct Counts {
    pub vertices: u16,
    pub triangles: u16,
    pub places: u16,
    pub loops: u16,
}

// The eight operations, with their indices.
#[derive(Clone, Copy, Debug, PartialEq, Eq)]
pub enum Operation {
    New,
    Forward,
    Backward,
    Border,
    Split(u16),
    Close,
    Union(u16, u16),
    Start,
}

// A record of the lent place list. Of a place in a live loop: its vertex, the places before and after it in the loop, and
// whether its edge to the next place is open (else it is marked as border). A record that is no place may hold anything where a
// state is lent; in a model begun here it is zero.
#[repr(C)]
#[derive(Clone, Copy, Debug, PartialEq, Eq)]
pub struct Place {
    pub vertex: u16,
    pub before: u16,
    pub after: u16,
    pub open: bool,
}

// The most places and the most live loops so far.
#[repr(C)]
#[derive(Clone, Copy, Debug, PartialEq, Eq)]
pub struct Peaks {
    pub places: u16,
    pub loops: u16,
}

// A model that is being built. Of the live loops the current one stands at `live - 1`, the latest waiting one before it,
// and so on: `current` has the place where a loop's current edge starts, `sizes` how many places it has.
#[repr(C)]
#[derive(Clone, Copy, Debug, PartialEq, Eq)]
pub struct Builder {
    pub stated: Counts,
    pub used: u16,
    pub built: u16,
    pub peaks: Peaks,
    pub edges: u16,
    pub starts: u16,
    pub unions: u16,
    pub rims: u16,
    pub live: u16,
    pub current: [u16; Builder::MAX_LOOPS],
    pub sizes: [u16; Builder::MAX_LOOPS],
}

impl Builder {
    // All loops together have at most so many places.
    pub const MAX_PLACES: usize = 1024;
    // At most so many loops are live, the current one included.
    pub const MAX_LOOPS: usize = 100;

    // The builder that was never begun: it holds nothing, and 21 refuses it.
    pub fn empty() -> Builder
        ensures { result ≡ empty_builder }
    {
        let stated = Counts {
            vertices: 0,
            triangles: 0,
            places: 0,
            loops: 0,
        };
        let peaks = Peaks {
            places: 0,
            loops: 0,
        };
        Builder {
            stated,
            used: 0,
            built: 0,
            peaks,
            edges: 0,
            starts: 0,
            unions: 0,
            rims: 0,
            live: 0,
            current: [0; Builder::MAX_LOOPS],
            sizes: [0; Builder::MAX_LOOPS],
        }
    }
}

// What a finish gives.
#[derive(Clone, Copy, Debug, PartialEq, Eq)]
pub struct Totals {
    pub edges: u16,
    pub rims: u16,
    pub unions: u16,
    pub euler: i32,
}

// What an unpacking gives.
#[derive(Clone, Copy, Debug, PartialEq, Eq)]
pub struct Model {
    pub vertices: u16,
    pub triangles: u16,
    pub totals: Totals,
}

/// Where a directed edge is: the number of the triangle that has it, the corner that the edge does not
/// touch, and the vertex there.
#[derive(Clone, Copy, Debug, PartialEq, Eq)]
pub struct Opposite {
    pub triangle: u16,
    pub corner: u8,
    pub vertex: u16,
}

/// A part of the pack that was lent: from which byte on, and how many bytes.
#[derive(Clone, Copy, Debug, PartialEq, Eq)]
pub struct Span {
    pub start: usize,
    pub length: usize,
}

/// What the bench reader gives: the model, and where in the pack its note stands, if it has one.
#[derive(Clone, Copy, Debug, PartialEq, Eq)]
pub struct Located {
    pub model: Model,
    pub note: Option<Span>,
}

/// The bench reader's answer, with the note as a part of the pack that was lent, empty if there is none or the pack is refused. (No
/// `Option`: a note that is there is not empty, and what is handed back is always a part of the pack.)
#[derive(Clone, Copy)]
pub struct Noted<'a> {
    pub answer: Result<Model, refusal::Refusal>,
    pub note: &'a [u8],
}
