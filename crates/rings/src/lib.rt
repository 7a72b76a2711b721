// Linked places in a memory: a live loop read, walks, and the surgery that each of the eight operations does. The contracts cite
// border_theory/specs/Memory/, of the numbers that the memory stands for.
#![tactic(auto)]

pub mod live; // a live loop, read
pub mod surgery; // the eight operations
pub mod walks; // along the places and the stacks
