// Theorems about the run of the furnace's own reader: 15 to 17, and the sum of the determinants. Definitions in specs/, proofs in proofs/;
// no code.
#![tactic(auto)]
