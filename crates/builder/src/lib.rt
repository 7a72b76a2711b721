// The cores of the three building calls: the operation and the finish over the plain memory of a lent place list, the beginning over
// the list's length. What the contracts cite stands in state_theory/specs/Performing/ (the operation) and Finishing/ (the beginning
// and the finish).
#![tactic(auto)]

pub mod begin; // 13, 14, and the empty builder
pub mod fan; // 20, on any triangles
pub mod finish; // 21, 15, 19, 20, and the four numbers
pub mod operation; // 21, 16 to 18, and the state after it
