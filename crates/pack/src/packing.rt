// Packing a list with what is given besides.
use notes::packing::{pack_note_on, pack_positions_note_on};
use packer::pack_on;
use positions::packing::pack_positions_on;
use rules::refusal::Refusal;
use rules::{Builder, TRIANGLES, VERTICES};
use text::packs::MOST_BYTES;

// What is packed besides the list, each if it is given.
#[derive(Clone, Copy)]
pub struct Extras<'a> {
    pub positions: Option<&'a [i16]>,
    pub note: Option<&'a [u8]>,
}

// What a packing is lent: a numbering, and room for the pack and for the order.
#[derive(Drop)]
pub struct Rooms {
    pub numbering: [u16; VERTICES],
    pub buffer: [u8; MOST_BYTES],
    pub order: [u16; TRIANGLES],
}

// Packs a list with what is given besides: the length of the pack, or the refusal.
pub fn pack_list(
    v: usize,
    list: &[u16],
    extras: Extras<'_>,
    rooms: &mut Rooms,
) -> Result<u32, Refusal> {
    let places = Builder::MAX_PLACES;
    let numbering = &mut rooms.numbering;
    let buffer = &mut rooms.buffer;
    let order = &mut rooms.order;
    match (extras.positions, extras.note) {
        (None, None) => pack_on(v, list, numbering, buffer, order, places),
        (None, Some(note)) => pack_note_on(v, list, note, numbering, buffer, order, places),
        (Some(positions), None) => {
            pack_positions_on(v, list, positions, numbering, buffer, order, places)
        }
        (Some(positions), Some(note)) => {
            pack_positions_note_on(v, list, positions, note, numbering, buffer, order, places)
        }
    }
}
