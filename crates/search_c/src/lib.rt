// What the library `search` exports for C and Rust, as a static library: each function is its function of the same name, under the same
// clauses. A crate is a library or a static library, not both: C links this one, Rust and Rattle call the other.
#![tactic(auto)]

ghost use Rattle.search.specs.Searching.{LinkGives, SearchGives};

use corners::Links;

// Links a list of a model of v vertices, for searching: refusals 1 to 4.
#[unsafe(no_mangle)]
pub extern "C" fn cutborder_link(v: usize, list: &[u16], links: &mut Links) -> u32
    ensures { LinkGives v list.now links.old result links.new }
{
    search::cutborder_link(v, list, links)
}

// Searches a list, as it was linked, for the last triangle that has p→q: 1, and its number, the corner across from the edge and the
// vertex there in `found`; or 0, and `found` as it was. Safe on any links.
#[unsafe(no_mangle)]
pub extern "C" fn cutborder_search(
    list: &[u16],
    links: &Links,
    p: u16,
    q: u16,
    found: &mut [u16; 3],
) -> u32
    ensures { SearchGives list.now links.now p q found.old result found.new }
{
    search::cutborder_search(list, links, p, q, found)
}
