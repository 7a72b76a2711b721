// Packs that may have a field of positions: 23. What the contracts cite stands in positions_theory/specs/.
#![tactic(auto)]

pub mod field; // the field of positions: 23
pub mod packing; // packing with positions
pub mod unpacking; // unpacking such packs
pub mod writing; // the positions of a list: 23, and their field
