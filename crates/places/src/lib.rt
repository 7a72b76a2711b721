// The list of place records that a caller lends: thin functions over it, and the way to the core's plain memory and back.
// The contracts cite border_theory/specs/Records/, and `place_at` of the crate rules.
#![tactic(auto)]

pub mod buffers; // filling lent buffers of numbers and bytes

ghost use Rattle.std.specs.Prelude.{◌≡◌, ℕ, ◌+◌, ◌*◌, ◌<◌, ◌≤◌, length, get_or};
ghost use Rattle.rules.specs.Limits.{max_places};
ghost use Rattle.rules.specs.View.{place_at};
ghost use Rattle.border_theory.specs.Records.Changes.{linked_at, freed_at, cleared_to};
ghost use Rattle.border_theory.specs.Records.Notes.{linked_count, linked_place, freed_start, freed_end, freed_place, Linkable, Freeable};
ghost use Rattle.border_theory.specs.Records.Notes.{linked_all, freed_all};
ghost use Rattle.border_theory.specs.Records.Plain.{number_of, is_one, stored_at, record_at, loaded, blank, count_of};

use cutborder::{FREED, LINKED, Memory, NUMBERS, PLACES, RECORDS};
use rules::Place;

// A record that is zero, its edge not open.
pub const FREE: Place = Place {
    vertex: 0,
    before: 0,
    after: 0,
    open: false,
};

// A copy of record i.
pub fn take(s: &[Place], i: usize) -> Place
    requires { i < length s.now }
    ensures { result ≡ place_at s.now i }
{
    s[i]
}

// Record i becomes p, which names the places before and after it.
pub fn link(s: &mut [Place], i: usize, p: Place)
    requires { i < length s.old }
    ensures { s.new ≡ linked_at s.old i p }
{
    s[i] = p;
}

// Record i becomes zero, its edge not open.
pub fn free(s: &mut [Place], i: usize)
    requires { i < length s.old }
    ensures { s.new ≡ freed_at s.old i }
{
    s[i] = FREE;
}

// The first n records become zero, their edges not open.
#[tactic(auto, unfolding(border_theory::specs::Records::Changes::cleared_to))]
pub fn clear(s: &mut [Place], n: usize)
    requires { n ≤ length s.old }
    ensures { s.new ≡ cleared_to n s.old }
{
    for i in 0..n {
        free(s, i);
    }
}

// An edge's openness as a number: 1 for open, else 0. (A function of its own, named for `number_of` of Records/Plain.)
pub fn number(open: bool) -> u16
    ensures { result ≡ number_of «open» }
{
    u16::from(open)
}

// Whether a number says that an edge is open: what is not 1 is not open. (Named for `is_one` of Records/Plain.)
pub fn is_one(x: u16) -> bool
    ensures { result ≡ is_one x }
{
    x == 1
}

// The plain memory that holds nothing.
#[tactic(auto, unfolding(border_theory::specs::Records::Plain::blank))]
pub fn empty() -> Memory
    ensures { result ≡ blank }
{
    [0u16; NUMBERS]
}

// Record i of the plain memory becomes p.
#[tactic(auto, unfolding(border_theory::specs::Records::Plain::stored_at))]
pub fn store_record(m: &mut Memory, i: usize, p: Place)
    requires { i < max_places }
    ensures { m.new ≡ stored_at m.old i p }
{
    let to = 4 * i;
    m[to] = p.vertex;
    m[to + 1] = p.before;
    m[to + 2] = p.after;
    m[to + 3] = number(p.open);
}

// Record i of the plain memory.
pub fn record_at(m: &Memory, i: usize) -> Place
    requires { i < max_places }
    ensures { result ≡ record_at m.now i }
{
    let at = 4 * i;
    Place {
        vertex: m[at],
        before: m[at + 1],
        after: m[at + 2],
        open: is_one(m[at + 3]),
    }
}

// What is not 1 in a record's last number becomes 0: the records are as they were.
pub fn settle(m: &mut Memory)
    ensures small { (p : ℕ) → p < max_places → get_or m.new (4 * p + 3) 0 ≤ 1 }
    ensures same { (p : ℕ) → record_at m.new p ≡ record_at m.old p }
{
    // By number: the clauses `small` and `same` speak of each record p by its number.
    for i in 0..PLACES {
        let at = 4 * i + 3;
        m[at] = number(is_one(m[at]));
    }
}

// How many of n records are read: all, or the first 1,024.
#[tactic(auto, unfolding(border_theory::specs::Records::Plain::count_of))]
pub fn count(n: usize) -> usize
    ensures { result ≡ count_of n }
{
    n.min(PLACES)
}

// The list's first n records go into the plain memory; its other numbers stay.
#[tactic(auto, unfolding(border_theory::specs::Records::Plain::loaded))]
pub fn load(s: &[Place], m: &mut Memory, n: usize)
    requires { (n ≤ length s.now) × (n ≤ max_places) }
    ensures { m.new ≡ loaded n s.now m.old }
{
    // By number: `loaded` of Records/Plain stores record i of the list as record i of the memory, which is one row of numbers.
    for i in 0..n {
        store_record(&mut *m, i, take(s, i));
    }
}

// What an operation linked and freed stands at the memory's end, and is read there by its place, as `linked_count`, `linked_place`,
// `freed_start`, `freed_end` and `freed_place` of Records/Notes have it.

// How many records an operation linked.
pub fn linked_count(m: &Memory) -> usize
    ensures { result ≡ linked_count m.now }
{
    usize::from(m[LINKED])
}

// The record that it linked as number k, from 0 on.
pub fn linked_at(m: &Memory, k: usize) -> usize
    requires { k < 5 }
    ensures { result ≡ linked_place m.now k }
{
    usize::from(m[LINKED + 1 + k])
}

// Where the records that it freed start on the stack of free places, and where they end.
pub fn freed_start(m: &Memory) -> usize
    ensures { result ≡ freed_start m.now }
{
    usize::from(m[FREED])
}

pub fn freed_end(m: &Memory) -> usize
    ensures { result ≡ freed_end m.now }
{
    usize::from(m[FREED + 1])
}

// The record at k on that stack.
pub fn freed_at(m: &Memory, k: usize) -> usize
    requires { k < max_places }
    ensures { result ≡ freed_place m.now k }
{
    usize::from(m[RECORDS + k])
}

// The records that an operation linked go into the list, out of the plain memory.
#[tactic(auto, unfolding(border_theory::specs::Records::Notes::linked_to))]
pub fn link_all(m: &Memory, s: &mut [Place])
    requires { Linkable m.now (length s.old) }
    ensures { s.new ≡ linked_all m.now s.old }
{
    for k in 0..linked_count(m) {
        let i = linked_at(m, k);
        link(s, i, record_at(m, i));
    }
}

// The records that an operation freed become zero, their edges not open.
#[tactic(auto, unfolding(border_theory::specs::Records::Notes::freed_to))]
pub fn free_all(m: &Memory, s: &mut [Place])
    requires { Freeable m.now (length s.old) }
    ensures { s.new ≡ freed_all m.now s.old }
{
    for k in freed_start(m)..freed_end(m) {
        free(s, freed_at(m, k));
    }
}
