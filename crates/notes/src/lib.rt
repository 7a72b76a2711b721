// Packs that may have a note: 25. What the contracts cite stands in notes_theory/specs/.
#![tactic(auto)]

pub mod note; // a note: 25, and its field
pub mod packing; // packing with a note
pub mod reading; // the note that is handed back
pub mod unpacking; // unpacking packs with a note
