// The search for the triangle that has a directed edge (C-12), alone, for C and Rust: a list is linked once and searched for any number
// of edges. 5 to 7 are not tested. The contracts cite specs/Searching.antt.
#![tactic(auto)]

ghost use Rattle.search.specs.Searching.{LinkGives, SearchGives};

use corners::{Links, across, link_each};
use mesh::check_numbers;
use rules::{CORNERS, VERTICES};

// Links a list of a model of v vertices, for searching: refusals 1 to 4.
#[unsafe(no_mangle)]
pub extern "C" fn cutborder_link(v: usize, list: &[u16], links: &mut Links) -> u32
    ensures { LinkGives v list.now links.old result links.new }
{
    match check_numbers(v, list) {
        Err(refusal) => u32::from(refusal.number()),
        Ok(()) => {
            *links = [0u16; VERTICES + CORNERS];
            link_each(list, links);
            0
        }
    }
}

// Searches a list, as it was linked, for the last triangle that has p→q: 1, and its number, the corner across from the edge and the
// vertex there in `found`; or 0, and `found` as it was. Safe on any links.
#[unsafe(no_mangle)]
pub extern "C" fn cutborder_search(
    list: &[u16],
    links: &Links,
    p: u16,
    q: u16,
    found: &mut [u16; 3],
) -> u32
    ensures { SearchGives list.now links.now p q found.old result found.new }
{
    let Some(x) = across(list, links, p, q) else {
        return 0;
    };
    *found = [x.triangle, u16::from(x.corner), x.vertex];
    1
}
