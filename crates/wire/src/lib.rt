// A pack's bytes, read and written: its fields and its operations' bits. What the contracts cite stands in specs/.
#![tactic(auto)]

pub mod fields; // the fields of a pack: taken off, and those before the operations written
pub mod reader; // the operation reader
pub mod writer; // operations as bits, written
